//! What a server does with what comes to it.
ghost use Rattle.std.specs.Prelude.{◌≡◌, ◌≤◌, List, length, IfSome};
ghost use Rattle.td_base.specs.declared.datagram.TheConstants.{DATAGRAM_MAX};
ghost use Rattle.topology.specs.declared.node.Node.TheVariants.{Server as server};
ghost use Rattle.topology.specs.Topology.{side_at};
ghost use Rattle.server_core.specs.Server.{server_row};
ghost use Rattle.history.specs.Full.{Full};
ghost use Rattle.legal.specs.Lab.{Lab};
ghost use Rattle.legal.specs.Settings.{server_settings};
ghost use Rattle.lab_nodes.specs.declared.played_node.PlayedNode.TheVariants as played;
ghost use Rattle.lab_nodes.specs.Call.{input_lent, IsShortInput, entry_in};
ghost use Rattle.lab_nodes.specs.Answers.{AnswersCall};

use crate::asked::Asked;
use crate::call::Call;
use crate::handed::{PacketRoom, handed_of, six_of};
use crate::input::Input;
use crate::one_arrival::OneArrival;
use crate::outlet::Outlet;
use server_core::Server;
use td_base::{Ep, Millis, Policy, Side};
use td_turns::{Pumped, pump};
use teredo_node::{Fate, Step};
use topology::ServerNode;

/// The side of a server that datagrams to an endpoint come to.
fn side_of(row: &ServerNode, dst: Ep) -> Side
    ensures { result ≡ side_at (server row.now) dst }
{
    if dst.ip == row.secondary {
        Side::Secondary
    } else {
        Side::Primary
    }
}

/// Lets a server answer a datagram that came to one of its endpoints.
fn serve(row: &ServerNode, now: Millis, src: Ep, dst: Ep, bytes: &[u8], step: &mut Step)
    requires { length bytes.now ≤ DATAGRAM_MAX }
    ensures { step.new ≡ server_row (server_settings row.now) (side_at (server row.now) dst) src bytes.now }
{
    let mut server = Server::new(row.primary, row.secondary, Policy::Strict);
    let mut link = OneArrival::new(side_of(row, dst), src, bytes);
    match pump(&mut server, &mut link, now, step) {
        Ok(Pumped::Took { .. }) => {}
        Ok(Pumped::Idle) => unreachable!(),
        Err(_) => unreachable!(),
    }
}

/// Lets a server do what is asked of it. It has no host, takes no IPv6 packet, and nothing is due of it.
fn ask_server(row: &ServerNode, call: Call<'_>, step: &mut Step)
    requires { IsShortInput (input_lent call.input) }
    ensures { (lab : Lab) (H : List Full) → step.new ≡ (entry_in lab H call.entry (server row.now)).step }
{
    match call.input {
        Input::Arrived { src, dst, bytes } => serve(row, call.now, src, dst, bytes, step),
        Input::Given { .. } => step.reset(Fate::Idle),
        Input::FromSix { .. } => step.reset(Fate::Idle),
        Input::Ticked => step.reset(Fate::Idle),
    }
}

/// What a server does whose row this is.
pub fn answer_server<'a>(
    row: ServerNode,
    call: Call<'_>,
    step: &mut Step,
    room: &'a mut PacketRoom,
) -> Asked<'a>
    requires short { IsShortInput (input_lent call.input) }
    ensures answers { AnswersCall call.entry (played.Server row) (played.Server row) step.new result }
    ensures short { IfSome result.packet (λ packet. length packet.bytes.now ≤ DATAGRAM_MAX) }
{
    ask_server(&row, call, step);
    Asked {
        outlet: Outlet::Own {
            primary: Ep::of_server(row.primary),
            secondary: Ep::of_server(row.secondary),
        },
        packet: six_of(call.input, step, room),
        handed: handed_of(call.input, step),
        address: None,
    }
}
