//! A node while a scenario is played.
ghost use Rattle.std.specs.Prelude.{◌≡◌, ◌≤◌, ◌<◌, ℕ, List, length, option_map, Some, IfOk, IfSome, OnErr};
ghost use Rattle.td_base.specs.declared.datagram.TheConstants.{DATAGRAM_MAX};
ghost use Rattle.td_base.specs.declared.millis.TheConstants.{CLOCK_END_MS};
ghost use Rattle.peer_list.specs.Overdue.{IsNoSooner};
ghost use Rattle.history.specs.Full.{Full};
ghost use Rattle.legal.specs.Lab.{Lab};
ghost use Rattle.legal.specs.Emit.{tick_due};
ghost use Rattle.legal.specs.Next.{address_of};
ghost use Rattle.lab_nodes.specs.Call.{input_lent, IsShortInput};
ghost use Rattle.lab_nodes.specs.PlayedNode.{row_of, past_of, IsKept, IsReady};
ghost use Rattle.lab_nodes.specs.Changes.{Restarts};
ghost use Rattle.lab_nodes.specs.Answers.{AnswersCall, WantsOnly};
ghost use Rattle.lab_nodes.specs.Due.{IsQuietNode};

use crate::asked::Asked;
use crate::call::Call;
use crate::client::answer_client;
use crate::handed::PacketRoom;
use crate::nat::answer_nat;
use crate::native::answer_native;
use crate::relay::answer_relay;
use crate::server::answer_server;
use client_core::Client;
use relay_core::Relay;
use td_base::{CLOCK_END_MS, Ip6, Millis, NoMemory};
use teredo_addr::UNSPECIFIED;
use teredo_node::{Endpoint, Step};
use topology::{ClientNode, NatNode, NativeNode, RelayNode, ServerNode};

/// A node of the topology while a scenario is played: its row, and what is kept of it. Of a server and a native host
/// nothing is, and of a NAT nothing here: datagrams pass from one to the next, so that NATs are kept together.
#[derive(Drop)]
pub enum PlayedNode {
    Server { row: ServerNode },
    Nat { row: NatNode },
    Client { row: ClientNode, client: Client },
    Relay { row: RelayNode, relay: Relay },
    Native { row: NativeNode },
}

/// Until when a node is quiet of which no tick is due at all: the end of the clock.
pub(crate) const NEVER: Millis = Millis(CLOCK_END_MS);

/// The moment, or `NEVER` where there is none.
fn or_never(at: Option<Millis>) -> Millis
    ensures { IsNoSooner result.0 (option_map (λ at. at.0) at) }
{
    at.unwrap_or(NEVER)
}

impl PlayedNode {
    /// Lets it do what is asked of it.
    pub(crate) fn answer<'a>(
        &mut self,
        call: Call<'_>,
        step: &mut Step,
        room: &'a mut PacketRoom,
    ) -> Result<Asked<'a>, NoMemory>
        requires short { IsShortInput (input_lent call.input) }
        requires early { call.now.0 < CLOCK_END_MS }
        requires ready { IsReady call.now.0 self.old }
        ensures row { row_of self.new ≡ row_of self.old }
        ensures ready { IsReady call.entry.now.0 self.new }
        ensures answers { IfOk result (λ asked. AnswersCall call.entry self.old self.new step.new asked) }
        ensures short { IfOk result (λ asked. IfSome asked.packet (λ packet. length packet.bytes.now ≤ DATAGRAM_MAX)) }
        ensures wants { OnErr result (WantsOnly call.entry self.old self.new step.old step.new) }
    {
        match self {
            PlayedNode::Server { row } => Ok(answer_server(*row, call, step, room)),
            PlayedNode::Nat { .. } => Ok(answer_nat(step)),
            PlayedNode::Client { row, client } => answer_client(*row, client, call, step),
            PlayedNode::Relay { row, relay } => answer_relay(*row, relay, call, step, room),
            PlayedNode::Native { row } => Ok(answer_native(*row, call, step, room)),
        }
    }

    /// When a tick of it is due: a server, a NAT and a native host have none.
    pub(crate) fn due(&self, at: Millis) -> Option<Millis>
        requires ready { IsReady at.0 self.now }
        requires early { at.0 < CLOCK_END_MS }
        ensures { (lab : Lab) (H : List Full) (n : ℕ) → IsKept lab.topology n (past_of lab n H) self.now
            → option_map (λ m. m.0) result ≡ tick_due lab H at.0 n (row_of self.now) }
    {
        match self {
            PlayedNode::Client { client, .. } => client.due(at),
            PlayedNode::Relay { relay, .. } => relay.due(at),
            PlayedNode::Server { .. } => None,
            PlayedNode::Nat { .. } => None,
            PlayedNode::Native { .. } => None,
        }
    }

    /// The moment before which no tick of it is due, whenever it is asked: `NEVER` where none is due at all. It is a bound
    /// that clients and relays keep, and so none need be due then.
    pub(crate) fn quiet_until(&self) -> Millis
        ensures { IsQuietNode result self.now }
    {
        match self {
            PlayedNode::Client { client, .. } => or_never(client.quiet_until()),
            PlayedNode::Relay { relay, .. } => or_never(relay.quiet_until()),
            PlayedNode::Server { .. } => NEVER,
            PlayedNode::Nat { .. } => NEVER,
            PlayedNode::Native { .. } => NEVER,
        }
    }

    /// The address of its host: a client's, or `::` where it isn't qualified; a native host's. Other nodes have none.
    #[tactic(auto, unfolding(qualify::specs::Solicitations::own_address))]
    pub(crate) fn address(&self) -> Ip6
        ensures { (lab : Lab) (H : List Full) (n : ℕ) → IsKept lab.topology n (past_of lab n H) self.now
            → result ≡ address_of lab H n (Some (row_of self.now)) }
    {
        match self {
            PlayedNode::Client { client, .. } => client.address().unwrap_or(UNSPECIFIED),
            PlayedNode::Native { row } => row.six,
            PlayedNode::Server { .. } => UNSPECIFIED,
            PlayedNode::Nat { .. } => UNSPECIFIED,
            PlayedNode::Relay { .. } => UNSPECIFIED,
        }
    }

    /// Lets it start anew: a client or relay drops all that it knows.
    pub(crate) fn restart(&mut self, now: Millis)
        requires early { now.0 < CLOCK_END_MS }
        ensures row { row_of self.new ≡ row_of self.old }
        ensures restarts { Restarts now.0 self.old self.new }
        ensures ready { (m : ℕ) → IsReady m self.old → IsReady m self.new }
    {
        match self {
            PlayedNode::Client { client, .. } => client.restart(now),
            PlayedNode::Relay { relay, .. } => relay.restart(),
            PlayedNode::Server { .. } => {}
            PlayedNode::Nat { .. } => {}
            PlayedNode::Native { .. } => {}
        }
    }
}
