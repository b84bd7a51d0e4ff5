//! Why a listener can't hear a record.
ghost use Rattle.std.specs.Prelude.{◌≡◌};

use td_base::NoMemory;
use td_outside::Failed;

/// Why a listener can't hear a record.
#[derive(Clone, Copy, Debug, PartialEq, Eq)]
pub enum HearFault {
    /// The sink failed.
    Failed,
    /// Memory ran out, and nothing was written of the record.
    NoMemory,
}

impl From<Failed> for HearFault {
    ghost use Rattle.player.specs.declared.hear_fault.HearFault.TheVariants as faults;

    ghost from_gives = { λ _ e. e ≡ faults.Failed };

    fn from(_: Failed) -> Self {
        HearFault::Failed
    }
}

impl From<NoMemory> for HearFault {
    ghost use Rattle.player.specs.declared.hear_fault.HearFault.TheVariants as faults;

    ghost from_gives = { λ _ e. e ≡ faults.NoMemory };

    fn from(_: NoMemory) -> Self {
        HearFault::NoMemory
    }
}
