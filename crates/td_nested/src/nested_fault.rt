//! Why there is no laboratory with NATs behind others.
use std::error::Error;
use std::fmt;
use td_base::NoMemory;
use td_chain::ChainFault;

/// A text and nodes make no laboratory with NATs behind others, or memory ran out.
#[derive(Clone, Copy, Debug, PartialEq, Eq)]
pub enum NestedFault {
    /// The text asks for no chain of these NATs.
    Chain,
    /// There is a relay or a native host.
    Nodes,
    /// Memory ran out, which says nothing of either.
    NoMemory,
}

impl fmt::Display for NestedFault {
    fn fmt<W: fmt::Write>(&self, f: &mut fmt::Formatter<W>) -> fmt::Result {
        match self {
            NestedFault::Chain => f.write_str("no chain of these NATs"),
            NestedFault::Nodes => f.write_str("there is a relay or a native host"),
            NestedFault::NoMemory => f.write_str("out of memory"),
        }
    }
}

impl Error for NestedFault {}

impl From<NoMemory> for NestedFault {
    ghost use Rattle.std.specs.Prelude.{◌≡◌};
    ghost use Rattle.td_nested.specs.declared.nested_fault.NestedFault.TheVariants.{NoMemory};

    ghost from_gives = { λ _ e. e ≡ NoMemory };

    fn from(_: NoMemory) -> Self {
        NestedFault::NoMemory
    }
}
