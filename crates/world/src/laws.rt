//! What holds of the numbers.
ghost use Rattle.world.specs.Numbers.{WireNumbers};

/// A wire has 65,536 entries at most, each with a number that an event can name.
pub fn wire_numbers()
    ensures { WireNumbers }
{}
