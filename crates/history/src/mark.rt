//! What a record says of a send.
use td_base::Ep;

/// Why a send made no entry.
#[derive(Clone, Copy, Debug, PartialEq, Eq)]
pub enum Loss {
    /// It went to the address of the NAT that it came through.
    Hairpin,
    /// The NAT had no mapping free.
    Full,
    /// An event made it fail.
    Fault,
}

/// What a record says of one send or packet: the entry that it became, or why it became none.
#[derive(Clone, Copy, Debug)]
pub enum Mark {
    /// A datagram.
    Udp {
        number: u32,
        src: Ep,
        dst: Ep,
        len: usize,
    },
    /// An IPv6 packet, for the relay of that number, if any.
    Six {
        number: u32,
        relay: Option<u16>,
        len: usize,
    },
    /// A datagram that was lost.
    Lost {
        why: Loss,
        dst: Ep,
        len: usize,
    },
}
