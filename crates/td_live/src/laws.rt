//! What holds of the numbers.
ghost use Rattle.td_live.specs.Numbers.{LiveNumbers};

/// The numbers of a session are those of the standard, or of this project.
pub fn live_numbers()
    ensures { LiveNumbers }
{}
