//! What holds of the numbers.
ghost use Rattle.history.specs.Numbers.{RecordNumbers};

/// A record has room for nine marks and four late packets.
pub fn record_numbers()
    ensures { RecordNumbers }
{}
