//! What holds of the numbers.
ghost use Rattle.show.specs.Numbers.{ShowNumbers};

/// The numbers of a page are those of the standard, or of this project.
pub fn show_numbers()
    ensures { ShowNumbers }
{}
