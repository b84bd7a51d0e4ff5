//! What holds of the numbers.
ghost use Rattle.teredo_app.specs.Numbers.{ProgramNumbers};

/// The statuses, the greatest seed and the most that is read of a file are those of this project.
pub fn program_numbers()
    ensures { ProgramNumbers }
{}
