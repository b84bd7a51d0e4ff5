//! Why bytes spell no packet.
use std::error::Error;
use std::fmt;

/// Why bytes spell no packet.
#[derive(Clone, Copy, Debug, PartialEq, Eq)]
pub enum PacketFault {
    /// Fewer bytes than a header has.
    Short { len: usize },
    /// The first four bits aren't 6.
    Version { nibble: u8 },
    /// The payload length isn't the number of bytes behind the header.
    Length { said: usize, there: usize },
}

impl fmt::Display for PacketFault {
    fn fmt<W: fmt::Write>(&self, f: &mut fmt::Formatter<W>) -> fmt::Result {
        match self {
            PacketFault::Short { len } => write!(f, "{len} bytes are fewer than a header has"),
            PacketFault::Version { nibble } => write!(f, "version {nibble}"),
            PacketFault::Length { said, there } => write!(
                f,
                "a body of {said} bytes is said, and {there} are there"
            ),
        }
    }
}

impl Error for PacketFault {}
