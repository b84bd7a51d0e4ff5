//! Calls of one of several nodes, by its number.
ghost use Rattle.std.specs.Prelude.{◌≤◌, ◌<◌, ℕ, length, IfOk, IfSome};
ghost use Rattle.td_base.specs.declared.datagram.TheConstants.{DATAGRAM_MAX};
ghost use Rattle.td_base.specs.declared.millis.TheConstants.{CLOCK_END_MS};
ghost use Rattle.lab_nodes.specs.Call.{input_lent, IsShortInput};
ghost use Rattle.lab_nodes.specs.PlayedNode.{AreReady};
ghost use Rattle.lab_nodes.specs.Changes.{Restarts, ChangesAt};
ghost use Rattle.lab_nodes.specs.Answers.{AnswersOrWants};

use crate::asked::Asked;
use crate::call::Call;
use crate::handed::PacketRoom;
use crate::played_node::PlayedNode;
use td_base::{Millis, NoMemory};
use teredo_node::Step;

/// Lets the node of a call do what is asked of it.
pub fn ask_at<'a>(
    nodes: &mut Vec<PlayedNode>,
    call: Call<'_>,
    step: &mut Step,
    room: &'a mut PacketRoom,
) -> Result<Asked<'a>, NoMemory>
    requires within { call.node < length nodes.old.items }
    requires short { IsShortInput (input_lent call.input) }
    requires early { call.now.0 < CLOCK_END_MS }
    requires ready { AreReady call.now.0 nodes.old.items }
    ensures ready { AreReady call.entry.now.0 nodes.new.items }
    ensures answers { ChangesAt (AnswersOrWants call.entry step.old step.new result) call.entry.node nodes.old.items nodes.new.items }
    ensures short { IfOk result (λ asked. IfSome asked.packet (λ packet. length packet.bytes.now ≤ DATAGRAM_MAX)) }
{
    let node = &mut nodes[usize::from(call.node)];
    node.answer(call, step, room)
}

/// Lets the node of a number start anew. Of a NAT nothing is kept here that would change.
pub fn restart_at(nodes: &mut Vec<PlayedNode>, number: u16, now: Millis)
    requires within { number < length nodes.old.items }
    requires early { now.0 < CLOCK_END_MS }
    ensures ready { (m : ℕ) → AreReady m nodes.old.items → AreReady m nodes.new.items }
    ensures restarts { ChangesAt (Restarts now.0) number nodes.old.items nodes.new.items }
{
    let node = &mut nodes[usize::from(number)];
    node.restart(now);
}
