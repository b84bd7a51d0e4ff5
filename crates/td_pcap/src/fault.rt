//! Why bytes are no capture.
use std::error::Error;
use std::fmt;

/// Why bytes are no capture. A place is that of the head's or the record's first byte.
#[derive(Clone, Copy, Debug, PartialEq, Eq)]
pub enum CapFault {
    /// Bytes are missing of the head or the record that begins at the place.
    Cut { at: usize },
    /// The first four bytes are no magic. The number is read in network order.
    Magic { said: u32 },
    /// The version isn't 2.4.
    Version { major: u16, minor: u16 },
    /// The link type isn't that of raw IP.
    Link { said: u32 },
    /// More bytes than a packet can have are said to be kept of the record at the place.
    Big { at: usize, said: u32 },
}

impl fmt::Display for CapFault {
    fn fmt<W: fmt::Write>(&self, f: &mut fmt::Formatter<W>) -> fmt::Result {
        match self {
            CapFault::Cut { at } => write!(f, "cut at {at}"),
            CapFault::Magic { said } => write!(f, "the magic {said:08x}"),
            CapFault::Version { major, minor } => write!(f, "version {major}.{minor}"),
            CapFault::Link { said } => write!(f, "link type {said}"),
            CapFault::Big { at, said } => write!(f, "a record of {said} bytes at {at}"),
        }
    }
}

impl Error for CapFault {}
