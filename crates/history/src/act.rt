//! What a record is about.
use events::Verb;

/// What a record is about: a tick, the delivery or the copy of an entry, or what its event's word says.
#[derive(Clone, Copy, Debug, PartialEq, Eq)]
pub enum Act {
    Tick,
    Deliver { number: u32 },
    Copy { number: u32 },
    Plain { verb: Verb },
}
