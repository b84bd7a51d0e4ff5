//! What a native host does with what comes to it.
ghost use Rattle.std.specs.Prelude.{◌≡◌, ◌≤◌, List, length, option_map, IfSome};
ghost use Rattle.td_base.specs.declared.datagram.TheConstants.{DATAGRAM_MAX};
ghost use Rattle.topology.specs.declared.node.Node.TheVariants.{Native as native};
ghost use Rattle.teredo_node.specs.Step.{just};
ghost use Rattle.native_host.specs.Natives.{native_in, native_out};
ghost use Rattle.history.specs.Full.{Full};
ghost use Rattle.legal.specs.Lab.{Lab};
ghost use Rattle.legal.specs.Emit.{native_packet, relay_for, native_made};
ghost use Rattle.lab_nodes.specs.declared.played_node.PlayedNode.TheVariants as played;
ghost use Rattle.lab_nodes.specs.Call.{input_lent, IsShortInput, entry_in};
ghost use Rattle.lab_nodes.specs.Outlet.{six_sent};
ghost use Rattle.lab_nodes.specs.Answers.{AnswersCall};

use crate::asked::{Asked, SixPacket};
use crate::call::Call;
use crate::handed::{PacketRoom, copied};
use crate::input::Input;
use crate::outlet::Outlet;
use teredo_node::{Fate, Step};
use topology::NativeNode;

/// What a native host does with a packet of its own, and the packet that it sends.
fn give_native<'a>(
    row: &NativeNode,
    bytes: &[u8],
    step: &mut Step,
    room: &'a mut PacketRoom,
) -> Option<&'a [u8]>
    requires short { length bytes.now ≤ DATAGRAM_MAX }
    ensures did { step.new ≡ just (native_out row.now.six bytes.now).fate }
    ensures packet { option_map (λ x. x.now) result ≡ (native_out row.now.six bytes.now).packet }
    ensures short { IfSome result (λ x. length x.now ≤ DATAGRAM_MAX) }
{
    let fate = native_host::send(row.six, bytes);
    step.reset(fate);
    match fate {
        Fate::SentSix => Some(copied(bytes, room)),
        _ => None,
    }
}

/// What a native host does with a packet of the IPv6 side, and the packet that it sends.
fn reply_native<'a>(bytes: &[u8], step: &mut Step, room: &'a mut PacketRoom) -> Option<&'a [u8]>
    requires short { length bytes.now ≤ DATAGRAM_MAX }
    ensures did { step.new ≡ just (native_in bytes.now).fate }
    ensures packet { option_map (λ x. x.now) result ≡ (native_in bytes.now).packet }
    ensures short { IfSome result (λ x. length x.now ≤ DATAGRAM_MAX) }
{
    match native_host::receive(bytes, room) {
        Some(len) => {
            step.reset(Fate::Echoed);
            Some(&room[..len])
        }
        None => {
            step.reset(Fate::Kept);
            None
        }
    }
}

/// Lets a native host do what is asked of it, and lends the packet that it sends.
fn ask_native<'a>(
    row: &NativeNode,
    call: Call<'_>,
    step: &mut Step,
    room: &'a mut PacketRoom,
) -> Option<&'a [u8]>
    requires short { IsShortInput (input_lent call.input) }
    ensures did { (lab : Lab) (H : List Full) → step.new ≡ (entry_in lab H call.entry (native row.now)).step }
    ensures packet { option_map (λ x. x.now) result ≡ native_packet row.now (input_lent call.entry.input) }
    ensures short { IfSome result (λ x. length x.now ≤ DATAGRAM_MAX) }
{
    match call.input {
        Input::Given { bytes } => give_native(row, bytes, step, room),
        Input::FromSix { bytes } => reply_native(bytes, step, room),
        Input::Arrived { .. } => {
            step.reset(Fate::Idle);
            None
        }
        Input::Ticked => {
            step.reset(Fate::Idle);
            None
        }
    }
}

/// The number of the relay that a packet goes to, where its destination is a Teredo address.
fn relay_for(row: &NativeNode, bytes: &[u8]) -> Option<u16>
    ensures { result ≡ relay_for row.now bytes.now }
{
    let Ok(packet) = ipv6_packet::read(bytes) else {
        return None;
    };
    if teredo_addr::is_teredo(packet.dst) {
        Some(row.relay)
    } else {
        None
    }
}

/// A packet of a native host, with the relay that it goes to.
fn with_relay<'a>(row: &NativeNode, packet: Option<&'a [u8]>) -> Option<SixPacket<'a>>
    ensures { six_sent result ≡ native_made row.now (option_map (λ x. x.now) packet.entry) }
{
    let bytes = packet?;
    Some(SixPacket {
        relay: relay_for(row, bytes),
        bytes,
    })
}

/// What a native host does whose row this is. Nothing is kept of it.
pub fn answer_native<'a>(
    row: NativeNode,
    call: Call<'_>,
    step: &mut Step,
    room: &'a mut PacketRoom,
) -> Asked<'a>
    requires short { IsShortInput (input_lent call.input) }
    ensures answers { AnswersCall call.entry (played.Native row) (played.Native row) step.new result }
    ensures short { IfSome result.packet (λ packet. length packet.bytes.now ≤ DATAGRAM_MAX) }
{
    let packet = ask_native(&row, call, step, room);
    Asked {
        outlet: Outlet::Silent,
        packet: with_relay(&row, packet),
        handed: None,
        address: None,
    }
}
