//! Why a text gives no scenario.
ghost use Rattle.std.specs.Prelude.{◌≡◌};

use crate::path::Path;
use td_base::NoMemory;
use thiserror::Error;

/// The first refusal of a text in the order of `docs/SCENARIOS.md`, or want of memory.
#[derive(Debug, Drop, Error)]
pub enum ScenarioFault {
    /// It has more bytes than a text may have.
    #[error("the text has more than 4194304 bytes")]
    TooLong,
    /// It is no UTF-8, or no TOML.
    #[error("the text is not TOML in UTF-8")]
    NotToml,
    /// A key that isn't known, or one that is required and missing.
    #[error("{path}: an unknown key, or a missing one")]
    Key { path: Path },
    /// A value of the wrong type.
    #[error("{path}: a value of the wrong type")]
    Kind { path: Path },
    /// A text or a number that breaks its rule, an address that another node has, or a list that is too long.
    #[error("{path}: a value that breaks its rule")]
    Range { path: Path },
    /// A name that is no name, that another node has, or that no node of the right kind has.
    #[error("{path}: a name that is taken, unknown or none")]
    Name { path: Path },
    /// The event's text of this number has its fault at this byte.
    #[error("events[{index}]: no event, from byte {place} on")]
    EventText { index: usize, place: usize },
    /// Memory ran out, which says nothing of the text.
    #[error("out of memory")]
    NoMemory,
}

impl From<NoMemory> for ScenarioFault {
    ghost use Rattle.scenario.specs.declared.scenario_fault.ScenarioFault.TheVariants.{NoMemory};

    ghost from_gives = { λ _ e. e ≡ NoMemory };

    fn from(_: NoMemory) -> Self {
        ScenarioFault::NoMemory
    }
}
