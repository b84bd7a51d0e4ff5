//! The ICMPv6 message of a packet.
ghost use Rattle.std.specs.Prelude.{◌≡◌, ◌≤◌, length};
ghost use Rattle.ipv6_packet.specs.Packets.{packet_view};
ghost use Rattle.td_base.specs.declared.datagram.TheConstants.{DATAGRAM_MAX};
ghost use Rattle.bubble.specs.Messages.{IsMessageOf, is_ill_formed};

use icmp6::Msg;
use ipv6_packet::{NEXT_ICMP, Packet};

/// The ICMPv6 message of a packet, where it has one and that is well-formed.
#[inline(always)]
#[tactic(auto, unfolding(crate::specs::Messages::message_in))]
pub fn message_of<'a>(packet: &Packet<'a>) -> Option<Msg<'a>>
    requires { length packet.now.body.now ≤ DATAGRAM_MAX }
    /// The ICMPv6 message of a packet is the one that a definition sees, or none; a packet is ill-formed where it is
    /// ICMPv6 and has none.
    /// Needs: a body of at most 1,400 bytes; for the second, the message that the first gives.
    ensures { IsMessageOf (packet_view packet.now) result }
{
    if packet.next != NEXT_ICMP {
        return None;
    }
    match icmp6::read(packet.src, packet.dst, packet.hop, packet.body) {
        Ok(message) => Some(message),
        Err(_) => None,
    }
}

/// Whether a packet is ICMPv6 and its message is refused.
#[inline(always)]
#[tactic(auto, unfolding(crate::specs::Messages::is_ill_formed))]
pub fn is_ill_formed(packet: &Packet<'_>, message: Option<Msg<'_>>) -> bool
    requires { IsMessageOf (packet_view packet.now) message }
    /// See `message_of`.
    ensures { result ≡ is_ill_formed (packet_view packet.now) }
{
    packet.next == NEXT_ICMP && message.is_none()
}
