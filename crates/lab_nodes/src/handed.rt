//! What a step hands of a datagram to the host, or to the IPv6 side.
ghost use Rattle.std.specs.Prelude.{◌≡◌, ◌≤◌, None, length, option_map, option_and_then, IfSome};
ghost use Rattle.td_base.specs.declared.datagram.TheConstants.{DATAGRAM_MAX};
ghost use Rattle.td_base.specs.declared.endpoint.Ep.{Ep};
ghost use Rattle.teredo_node.specs.Step.{part};
ghost use Rattle.teredo_node.specs.Journal.{arrived};
ghost use Rattle.legal.specs.Emit.{six_made, part_of};
ghost use Rattle.lab_nodes.specs.Call.{input_lent, IsShortInput};
ghost use Rattle.lab_nodes.specs.Outlet.{six_sent};

use crate::asked::SixPacket;
use crate::input::Input;
use td_base::{DATAGRAM_MAX, Span};
use teredo_node::Step;

/// Room for the packet that a node sends. What comes to a node is lent by the wire, onto which its packet is put next: so
/// the packet stands here in between, and takes no memory of its own.
pub type PacketRoom = [u8; DATAGRAM_MAX];

/// The part of some bytes that a span tells.
pub fn lend_part(bytes: &[u8], span: Span) -> &[u8]
    /// A part of some bytes is lent, as far as it is there.
    ensures { result.now ≡ part bytes.now span }
{
    let rest = &bytes[span.at.min(bytes.len())..];
    &rest[..span.len.min(rest.len())]
}

/// Some bytes, copied to the front of `room`.
pub fn copied<'a>(bytes: &[u8], room: &'a mut PacketRoom) -> &'a [u8]
    requires { length bytes.now ≤ DATAGRAM_MAX }
    ensures { result.now ≡ bytes.now }
{
    let front = &mut room[..bytes.len()];
    front.copy_from_slice(bytes);
    front
}

/// What a step gives of a datagram to the IPv6 side.
fn part_copied<'a>(bytes: &[u8], step: &Step, room: &'a mut PacketRoom) -> Option<SixPacket<'a>>
    requires short { length bytes.now ≤ DATAGRAM_MAX }
    ensures made { (src : Ep) → six_sent result ≡ six_made (arrived src bytes.now) step.now.six }
    ensures short { IfSome result (λ packet. length packet.bytes.now ≤ DATAGRAM_MAX) }
{
    let span = step.six()?;
    Some(SixPacket {
        relay: None,
        bytes: copied(lend_part(bytes, span), room),
    })
}

/// The length of what a step hands of a datagram to the host.
pub fn handed_of(input: Input<'_>, step: &Step) -> Option<usize>
    ensures { result ≡ option_map length (option_and_then (part_of (input_lent input.entry)) step.now.handed) }
{
    let span = step.handed()?;
    match input {
        Input::Arrived { bytes, .. } => Some(lend_part(bytes, span).len()),
        Input::Given { .. } => None,
        Input::FromSix { .. } => None,
        Input::Ticked => None,
    }
}

/// What a step gives of what came to the IPv6 side.
pub fn six_of<'a>(input: Input<'_>, step: &Step, room: &'a mut PacketRoom) -> Option<SixPacket<'a>>
    requires short { IsShortInput (input_lent input) }
    ensures made { six_sent result ≡ six_made (input_lent input.entry) step.now.six }
    ensures short { IfSome result (λ packet. length packet.bytes.now ≤ DATAGRAM_MAX) }
{
    match input {
        Input::Arrived { bytes, .. } => part_copied(bytes, step, room),
        Input::Given { .. } => None,
        Input::FromSix { .. } => None,
        Input::Ticked => None,
    }
}
