//! Why bytes spell no UDP datagram over IPv4.
use std::error::Error;
use std::fmt;

/// Why bytes spell no UDP datagram over IPv4.
#[derive(Clone, Copy, Debug, PartialEq, Eq)]
pub enum Ip4Fault {
    /// Fewer bytes than a header has.
    Short { len: usize },
    /// The first four bits aren't 4.
    Version { nibble: u8 },
    /// The header's length in words is less than a header has, or more than is there.
    Head { words: u8 },
    /// The total length isn't the number of bytes.
    Length { said: usize, there: usize },
    /// It is one of several fragments.
    Fragment { field: u16 },
    /// The protocol isn't UDP.
    Protocol { number: u8 },
    /// Fewer bytes follow the header than UDP's has.
    UdpShort { len: usize },
    /// UDP's length isn't the number of bytes that follow the header.
    UdpLength { said: usize, there: usize },
}

impl fmt::Display for Ip4Fault {
    fn fmt<W: fmt::Write>(&self, f: &mut fmt::Formatter<W>) -> fmt::Result {
        match self {
            Ip4Fault::Short { len } => write!(f, "{len} bytes are fewer than a header has"),
            Ip4Fault::Version { nibble } => write!(f, "version {nibble}"),
            Ip4Fault::Head { words } => write!(f, "a header of {words} words"),
            Ip4Fault::Length { said, there } => {
                write!(f, "{said} bytes are said, and {there} are there")
            }
            Ip4Fault::Fragment { field } => write!(f, "a fragment, by the field {field:04x}"),
            Ip4Fault::Protocol { number } => write!(f, "protocol {number}"),
            Ip4Fault::UdpShort { len } => {
                write!(f, "{len} bytes are fewer than UDP's header has")
            }
            Ip4Fault::UdpLength { said, there } => {
                write!(f, "{said} bytes of UDP are said, and {there} are there")
            }
        }
    }
}

impl Error for Ip4Fault {}
