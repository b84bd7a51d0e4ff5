//! What the hosts of nodes send.
ghost use Rattle.std.specs.Prelude.{◌≡◌, ◌≤◌, List, [], length, take};
ghost use Rattle.events.specs.declared.event.TheConstants.{BODY_MAX};
ghost use Rattle.history.specs.Full.{Full};
ghost use Rattle.native_host.specs.declared.limits.TheConstants.{HOST_ECHO_ID};
ghost use Rattle.ipv6_packet.specs.Packets.{packet_bytes};
ghost use Rattle.icmp6.specs.Message.{echo_request};
ghost use Rattle.icmp6.specs.Layout.{message_bytes};
ghost use Rattle.legal.specs.Lab.{Lab};
ghost use Rattle.legal.specs.Next.{data_packet, echo_packet, address_at, target_address};
ghost use Rattle.lab_nodes.specs.PlayedNode.{NodesOf};

use crate::played_node::PlayedNode;
use events::{BODY_MAX, Target};
use icmp6::Msg;
use ipv6_packet::{HEADER, NEXT_ICMP, Packet};
use native_host::{HOST_DATA_NEXT, HOST_ECHO_ID, HOST_HOP};
use td_base::Ip6;
use teredo_addr::UNSPECIFIED;

/// The most bytes of a packet with a host's data.
pub const DATA_MAX: usize = HEADER + BODY_MAX;

/// How many bytes the message of an echo request has, which has no data (RFC 4443, section 4.1).
const ECHO_MESSAGE: usize = 8;

/// How many bytes an echo request of a host has: a packet's header, and its message.
pub const ECHO: usize = HEADER + ECHO_MESSAGE;

/// Writes a packet with a host's data, and answers its length.
pub fn write_data(src: Ip6, dst: Ip6, body: &[u8], out: &mut [u8; DATA_MAX]) -> usize
    requires short { length body.now ≤ BODY_MAX }
    /// A host's data and its echo request have the bytes of their packets.
    /// Needs: data of 1,240 bytes at most.
    ensures written { take result out.new ≡ packet_bytes (data_packet src dst body.now) }
    /// See `written`.
    ensures within { result ≤ DATA_MAX }
{
    let packet = Packet {
        class: 0,
        flow: 0,
        next: HOST_DATA_NEXT,
        hop: HOST_HOP,
        src,
        dst,
        body,
    };
    ipv6_packet::write(&packet, out).unwrap()
}

/// The message of a host's echo request.
fn echo_message(src: Ip6, dst: Ip6, seq: u16) -> [u8; ECHO_MESSAGE]
    ensures { result ≡ message_bytes src dst (echo_request HOST_ECHO_ID seq []) }
{
    let message = Msg::EchoRequest {
        id: HOST_ECHO_ID,
        seq,
        body: &[],
    };
    let mut bytes = [0; ECHO_MESSAGE];
    icmp6::write(&message, src, dst, &mut bytes).unwrap();
    bytes
}

/// A host's echo request.
pub fn echo(src: Ip6, dst: Ip6, seq: u16) -> [u8; ECHO]
    /// See `write_data`: `written`.
    ensures { result ≡ packet_bytes (echo_packet src dst seq) }
{
    let packet = Packet {
        class: 0,
        flow: 0,
        next: NEXT_ICMP,
        hop: HOST_HOP,
        src,
        dst,
        body: &echo_message(src, dst, seq),
    };
    let mut bytes = [0; ECHO];
    ipv6_packet::write(&packet, &mut bytes).unwrap();
    bytes
}

/// The address of the host of a node: a client's, or `::` where it isn't qualified; a native host's.
pub fn address_at(nodes: &[PlayedNode], number: u16) -> Ip6
    /// The host of a node has the address that the history gives it.
    ensures { (lab : Lab) (H : List Full) → NodesOf lab nodes.now H → result ≡ address_at lab H number }
{
    match nodes.get(usize::from(number)) {
        Some(node) => node.address(),
        None => UNSPECIFIED,
    }
}

/// The address that a target stands for.
pub fn target_address(nodes: &[PlayedNode], to: Target) -> Ip6
    /// See `address_at`.
    ensures { (lab : Lab) (H : List Full) → NodesOf lab nodes.now H → result ≡ target_address lab H to }
{
    match to {
        Target::Node(number) => address_at(nodes, number),
        Target::At(ip) => ip,
    }
}
