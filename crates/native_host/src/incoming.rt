//! Packets that come to a native host.
ghost use Rattle.std.specs.Prelude.{◌≡◌, ◌≤◌, ◌+◌, length, take, IfSome, IfNone};
ghost use Rattle.td_base.specs.declared.datagram.TheConstants.{DATAGRAM_MAX};
ghost use Rattle.ipv6_packet.specs.declared.header.TheConstants.{HEADER};
ghost use Rattle.icmp6.specs.declared.numbers.TheConstants.{ECHO_LEN};
ghost use Rattle.ipv6_packet.specs.Packets.{packet_bytes};
ghost use Rattle.icmp6.specs.Message.{echo_reply};
ghost use Rattle.bubble.specs.Messages.{message_packet};
ghost use Rattle.native_host.specs.Natives.{native_in, answered_by};

use crate::limits::HOST_HOP;
use bubble::message_of;
use icmp6::{MESSAGE_MAX, Msg};
use ipv6_packet::{NEXT_ICMP, Packet};
use td_base::{DATAGRAM_MAX, Ip6, is_global6};

/// Writes the answer to an echo request, from `src` to `dst`, to the front of `out`, and answers how many bytes it has.
fn write_reply(
    src: Ip6,
    dst: Ip6,
    id: u16,
    seq: u16,
    body: &[u8],
    out: &mut [u8; DATAGRAM_MAX],
) -> usize
    requires { HEADER + ECHO_LEN + length body.now ≤ DATAGRAM_MAX }
    ensures len { result ≡ HEADER + ECHO_LEN + length body.now }
    ensures written { take result out.new ≡ packet_bytes (message_packet HOST_HOP src dst (echo_reply id seq body.now)) }
{
    let mut message = [0; MESSAGE_MAX];
    let len = icmp6::write(&Msg::EchoReply { id, seq, body }, src, dst, &mut message).unwrap();
    let packet = Packet {
        class: 0,
        flow: 0,
        next: NEXT_ICMP,
        hop: HOST_HOP,
        src,
        dst,
        body: &message[..len],
    };
    ipv6_packet::write(&packet, out).unwrap()
}

/// Takes the bytes of a packet that came. Where it is an echo request from a global source, the reply stands at the front
/// of `out`, and the answer is how many bytes it has. Any other packet is kept, and nothing is written.
#[tactic(auto, unfolding(crate::specs::Natives::native_in))]
pub fn receive(bytes: &[u8], out: &mut [u8; DATAGRAM_MAX]) -> Option<usize>
    requires { length bytes.now ≤ DATAGRAM_MAX }
    /// A packet that comes is kept, or is an echo request from a global source, and the whole reply is written. Each
    /// byte of the reply is stated, so its checksum, its hop limit of 64 and both of its addresses are. It is as long
    /// as the request.
    /// Needs: at most 1,400 bytes.
    /// Leaves open: what stands in the buffer behind the reply.
    ensures whole { native_in bytes.now ≡ answered_by result out.new }
    /// See `whole`.
    ensures long { IfSome result (λ len. len ≡ length bytes.now) }
    /// Where nothing is answered, nothing is written.
    /// Needs: at most 1,400 bytes.
    ensures unwritten { IfNone result (out.new ≡ out.old) }
{
    let Ok(packet) = ipv6_packet::read(bytes) else {
        return None;
    };
    if !is_global6(packet.src) {
        return None;
    }
    match message_of(&packet) {
        // echoed: our choice
        Some(Msg::EchoRequest { id, seq, body }) => {
            Some(write_reply(packet.dst, packet.src, id, seq, body, out))
        }
        // kept: our choice
        _ => None,
    }
}
