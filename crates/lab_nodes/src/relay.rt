//! What a relay does with what comes to it.
ghost use Rattle.std.specs.Prelude.{◌≡◌, ◌≤◌, length, OnOk, OnErr, IfOk, IfSome};
ghost use Rattle.td_base.specs.declared.datagram.TheConstants.{DATAGRAM_MAX};
ghost use Rattle.relay_core.specs.Relay.{RelayDoes, IsCallableRelay, RelayAsBefore, relay_callable_from};
ghost use Rattle.lab_nodes.specs.declared.played_node.PlayedNode.TheVariants as played;
ghost use Rattle.lab_nodes.specs.Call.{input_lent, IsShortInput};
ghost use Rattle.lab_nodes.specs.Answers.{RelayStarves, AnswersCall, WantsOnly};

use crate::asked::Asked;
use crate::call::Call;
use crate::handed::{PacketRoom, handed_of, six_of};
use crate::input::Input;
use crate::outlet::Outlet;
use relay_core::Relay;
use td_base::{NoMemory, Side};
use teredo_node::{Endpoint, Step};
use topology::RelayNode;

/// Lets a relay do what is asked of it.
fn ask_relay(relay: &mut Relay, call: Call<'_>, step: &mut Step) -> Result<(), NoMemory>
    requires callable { IsCallableRelay relay.old call.now.0 }
    ensures done { OnOk result (RelayDoes relay.old call.entry.now.0 (input_lent call.entry.input) step.new relay.new) }
    ensures starved { OnErr result (RelayStarves relay.old call.entry.now.0 (input_lent call.entry.input)) }
    ensures as_before { OnErr result (RelayAsBefore relay.old relay.new) }
    ensures again { relay_callable_from relay.new ≤ call.entry.now.0 }
    ensures untouched { OnErr result (step.new ≡ step.old) }
{
    match call.input {
        Input::Arrived { src, bytes, .. } => {
            relay.on_datagram(call.now, Side::Primary, src, bytes, step)
        }
        Input::FromSix { bytes } => relay.on_six(call.now, bytes, step),
        Input::Given { .. } => {
            relay.on_host(call.now, step);
            Ok(())
        }
        Input::Ticked => {
            relay.on_tick(call.now, step);
            Ok(())
        }
    }
}

/// What a relay does whose row this is.
pub fn answer_relay<'a>(
    row: RelayNode,
    relay: &mut Relay,
    call: Call<'_>,
    step: &mut Step,
    room: &'a mut PacketRoom,
) -> Result<Asked<'a>, NoMemory>
    requires callable { IsCallableRelay relay.old call.now.0 }
    requires short { IsShortInput (input_lent call.input) }
    ensures ready { relay_callable_from relay.new ≤ call.entry.now.0 }
    ensures answers { IfOk result (λ asked. AnswersCall call.entry (played.Relay row relay.old) (played.Relay row relay.new) step.new asked) }
    ensures short { IfOk result (λ asked. IfSome asked.packet (λ packet. length packet.bytes.now ≤ DATAGRAM_MAX)) }
    ensures wants { OnErr result (WantsOnly call.entry (played.Relay row relay.old) (played.Relay row relay.new) step.old step.new) }
{
    ask_relay(relay, call, step)?;
    Ok(Asked {
        outlet: Outlet::Own {
            primary: row.at,
            secondary: row.at,
        },
        packet: six_of(call.input, step, room),
        handed: handed_of(call.input, step),
        address: None,
    })
}
