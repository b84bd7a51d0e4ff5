//! How a record comes about: whether its event has further ones, or why there is none.
use crate::records::Record;
use td_base::NoMemory;

/// A record, and whether its event has further ones.
#[derive(Drop)]
pub enum Turn {
    /// The same event has further records.
    More(Record),
    /// It has none.
    Last(Record),
}

/// Why no record was made. From then on the answer stays the same.
#[derive(Clone, Copy, Debug, PartialEq, Eq)]
pub enum Stop {
    /// The record would make more entries than a wire may have.
    WireFull,
    NoMemory,
}

impl From<NoMemory> for Stop {
    ghost use Rattle.std.specs.Prelude.{◌≡◌};
    ghost use Rattle.history.specs.declared.turn.Stop.TheVariants.{NoMemory};

    ghost from_gives = { λ _ stop. stop ≡ NoMemory };

    fn from(_: NoMemory) -> Self {
        Stop::NoMemory
    }
}
