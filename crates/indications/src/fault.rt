//! Why bytes have no lead.
use std::error::Error;
use std::fmt;

/// Why bytes begin with no indications and packet. The place is that of a block's first byte.
#[derive(Clone, Copy, Debug, PartialEq, Eq)]
pub enum LeadFault {
    /// Bytes are missing of what begins at the place.
    Cut { at: usize },
    /// An authentication that isn't first, or a second origin.
    Order { at: usize },
    /// A byte that begins nothing: a first byte at its block's place, a second byte one place on.
    Kind { at: usize, byte: u8 },
}

impl fmt::Display for LeadFault {
    fn fmt<W: fmt::Write>(&self, f: &mut fmt::Formatter<W>) -> fmt::Result {
        match self {
            LeadFault::Cut { at } => write!(f, "cut at {at}"),
            LeadFault::Order { at } => write!(f, "out of order at {at}"),
            LeadFault::Kind { at, byte } => write!(f, "the byte {byte:02x} at {at} begins nothing"),
        }
    }
}

impl Error for LeadFault {}
