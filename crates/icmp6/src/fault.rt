//! Why bytes are no message.
use std::error::Error;
use std::fmt;

/// Why bytes are no message. Places count from the first byte of the message.
#[derive(Clone, Copy, Debug, PartialEq, Eq)]
pub enum IcmpFault {
    /// Fewer bytes than the message's fields take.
    Short { len: usize },
    /// The checksum field isn't the checksum.
    Sum { said: u16, found: u16 },
    /// The hop limit of a router's message isn't 255.
    HopLimit { hop: u8 },
    /// The code isn't 0.
    Code { code: u8 },
    /// An advertisement's source isn't link-local.
    Source,
    /// An option is longer than what is left.
    OptionCut { place: usize },
    /// An option's length is 0.
    OptionZero { place: usize },
}

impl fmt::Display for IcmpFault {
    fn fmt<W: fmt::Write>(&self, f: &mut fmt::Formatter<W>) -> fmt::Result {
        match self {
            IcmpFault::Short { len } => write!(f, "{len} bytes are fewer than the fields take"),
            IcmpFault::Sum { said, found } => write!(
                f,
                "the checksum {said:04x} is said, and {found:04x} is right"
            ),
            IcmpFault::HopLimit { hop } => write!(f, "hop limit {hop}"),
            IcmpFault::Code { code } => write!(f, "code {code}"),
            IcmpFault::Source => write!(f, "the source isn't link-local"),
            IcmpFault::OptionCut { place } => write!(f, "the option at {place} is cut"),
            IcmpFault::OptionZero { place } => write!(f, "the option at {place} has length 0"),
        }
    }
}

impl Error for IcmpFault {}
