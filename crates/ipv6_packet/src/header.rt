//! The packet, and the numbers of its header.
ghost use Rattle.std.specs.Prelude.{◌≡◌};
ghost use Rattle.ipv6_packet.specs.Packets.{packet_view};
ghost use Rattle.ipv6_packet.specs.Reads.{is_big};

use td_base::Ip6;

/// The header's length, in bytes.
pub const HEADER: usize = 40;

/// The version that stands in the first four bits.
pub const VERSION: u8 = 6;

/// The next header of an ICMPv6 message: RFC 4443, section 1.
pub const NEXT_ICMP: u8 = 58;

/// The next header that says that nothing follows: RFC 8200, section 4.7.
pub const NEXT_NONE: u8 = 59;

/// The most bytes of a packet that every link carries whole, which is the MTU of RFC 4380, section 5.1.2.
pub const PACKET_MAX: usize = 1280;

/// A packet, whose body is lent. The flow label has 20 bits. The field of most bytes among the header's numbers stands
/// first, so that the numbers leave no gap, which each move of a packet would copy.
#[derive(Clone, Copy, Debug)]
pub struct Packet<'a> {
    pub flow: u32,
    pub class: u8,
    pub next: u8,
    pub hop: u8,
    pub src: Ip6,
    pub dst: Ip6,
    pub body: &'a [u8],
}

/// Whether a packet has more than `PACKET_MAX` bytes.
#[inline(always)]
#[tactic(auto, unfolding(crate::specs::Reads::is_big))]
pub fn is_big(p: &Packet) -> bool
    /// See `read`: `seen`.
    ensures { result ≡ is_big (packet_view p.now) }
{
    p.body.len() > PACKET_MAX - HEADER
}
