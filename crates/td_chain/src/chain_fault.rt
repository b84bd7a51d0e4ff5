//! Why a text asks for no chain.
use std::error::Error;
use std::fmt;
use td_base::NoMemory;

/// A text asks for no chain of NATs, or memory ran out.
#[derive(Clone, Copy, Debug, PartialEq, Eq)]
pub enum ChainFault {
    /// It is no list of pairs of NATs, or the chain breaks a rule.
    Chain,
    /// Memory ran out, which says nothing of the text.
    NoMemory,
}

impl fmt::Display for ChainFault {
    fn fmt<W: fmt::Write>(&self, f: &mut fmt::Formatter<W>) -> fmt::Result {
        match self {
            ChainFault::Chain => f.write_str("no chain of these NATs"),
            ChainFault::NoMemory => f.write_str("out of memory"),
        }
    }
}

impl Error for ChainFault {}

impl From<NoMemory> for ChainFault {
    ghost use Rattle.std.specs.Prelude.{◌≡◌};
    ghost use Rattle.td_chain.specs.declared.chain_fault.ChainFault.TheVariants.{NoMemory};

    ghost from_gives = { λ _ e. e ≡ NoMemory };

    fn from(_: NoMemory) -> Self {
        ChainFault::NoMemory
    }
}
