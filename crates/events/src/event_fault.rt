//! Why a text gives no event.
use td_base::NoMemory;
use thiserror::Error;

/// Why a text gives no event.
#[derive(Clone, Copy, Debug, PartialEq, Eq, Error)]
pub enum EventFault {
    /// The first word that breaks its rule stands at this place, or the first word too many, or the text ends there and
    /// a word is missing.
    #[error("no event, from byte {place} on")]
    At { place: usize },
    /// Memory ran out, which says nothing of the text.
    #[error("out of memory")]
    NoMemory,
}

impl From<NoMemory> for EventFault {
    ghost use Rattle.std.specs.Prelude.{◌≡◌};
    ghost use Rattle.events.specs.declared.event_fault.EventFault.TheVariants.{NoMemory};

    ghost from_gives = { λ _ e. e ≡ NoMemory };

    fn from(_: NoMemory) -> Self {
        EventFault::NoMemory
    }
}
