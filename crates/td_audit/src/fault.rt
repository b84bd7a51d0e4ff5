//! Why there is no verdict.
use std::error::Error;
use std::fmt;
use td_base::NoMemory;
use td_pcap::CapFault;

/// Why there is no verdict.
#[derive(Clone, Copy, Debug, PartialEq, Eq)]
pub enum AuditFault {
    /// The bytes are no capture, by their first fault.
    Capture(CapFault),
    /// Memory ran out.
    NoMemory,
}

impl fmt::Display for AuditFault {
    fn fmt<W: fmt::Write>(&self, f: &mut fmt::Formatter<W>) -> fmt::Result {
        match self {
            AuditFault::Capture(fault) => write!(f, "no capture: {fault}"),
            AuditFault::NoMemory => f.write_str("out of memory"),
        }
    }
}

impl Error for AuditFault {}

impl From<CapFault> for AuditFault {
    ghost use Rattle.std.specs.Prelude.{◌≡◌};
    ghost use Rattle.td_audit.specs.declared.fault.AuditFault.TheVariants.{Capture};

    ghost from_gives = { λ fault e. e ≡ Capture fault };

    fn from(fault: CapFault) -> Self {
        AuditFault::Capture(fault)
    }
}

impl From<NoMemory> for AuditFault {
    ghost use Rattle.std.specs.Prelude.{◌≡◌};
    ghost use Rattle.td_audit.specs.declared.fault.AuditFault.TheVariants as fault;

    ghost from_gives = { λ _ e. e ≡ fault.NoMemory };

    fn from(_: NoMemory) -> Self {
        AuditFault::NoMemory
    }
}
