//! The nodes of a scenario, by their numbers.
ghost use Rattle.std.specs.Prelude.{◌≡◌, ◌≤◌, ◌<◌, ℕ, [], List, length, Some, option_map, IfOk, IfSome, IfNone};
ghost use Rattle.td_base.specs.declared.datagram.TheConstants.{DATAGRAM_MAX};
ghost use Rattle.td_base.specs.declared.millis.TheConstants.{CLOCK_END_MS};
ghost use Rattle.topology.specs.declared.topology.TheConstants.{NODES_MAX};
ghost use Rattle.topology.specs.Chains.{Behind};
ghost use Rattle.topology.specs.Topology as all;
ghost use Rattle.history.specs.Full.{Full};
ghost use Rattle.legal.specs.Lab.{Lab, draws, lab_on};
ghost use Rattle.legal.specs.Past.{now};
ghost use Rattle.legal.specs.Next as next;
ghost use Rattle.lab_nodes.specs.Call.{input_lent, IsShortInput};
ghost use Rattle.lab_nodes.specs.PlayedNode.{AreOf, NodesOf, AreReady};
ghost use Rattle.lab_nodes.specs.Changes.{Restarts, ChangesAt};
ghost use Rattle.lab_nodes.specs.Answers.{AnswersOrWants};
ghost use Rattle.lab_nodes.specs.Due.{due_as, NoneIsDue, AreQuiet, AreQuietBut, NoneIsSooner, AreQuietWith};

use crate::asked::Asked;
use crate::call::Call;
use crate::due::{self, Due};
use crate::first_node::first_nodes;
use crate::handed::PacketRoom;
use crate::one_node;
use crate::played_node::{NEVER, PlayedNode};
use std::alloc::Global;
use std::marker::Model;
use td_base::{Millis, NoMemory};
use teredo_node::Step;
use topology::Topology;

/// The nodes of a scenario while it is played, by their numbers.
#[derive(Drop)]
pub struct Nodes {
    list: Vec<PlayedNode>,
    // until when no tick of a node is due, so that a search for the first needn't look at each of them
    quiet: Vec<Millis>,
    // until when no tick of any node is due: the least of `quiet` or sooner, so that most often no search is needed
    soonest: Millis,
}

// No clause sees a field that nothing reads: so they are their parts, and no byte more.
const _: () = prove_eq!(
    size_of::<Nodes>(),
    size_of::<(Vec<PlayedNode>, Vec<Millis>, Millis)>()
);

impl Model for Nodes {
    ghost use Rattle.std.specs.Prelude.{List};
    ghost use Rattle.lab_nodes.specs.declared.played_node.PlayedNode.{PlayedNode};
    ghost use Rattle.lab_nodes.specs.Due.{AreQuietWith};

    ghost Value = { List PlayedNode };

    ghost view = { λ nodes. nodes.list.items };

    ghost invariant = { λ nodes. AreQuietWith nodes.soonest nodes.list.items nodes.quiet.items };
}

/// Until when no tick of each node is due.
fn quiet_of(alloc: Global, nodes: &[PlayedNode]) -> Result<Vec<Millis>, NoMemory>
    ensures { IfOk result (λ quiet. AreQuiet nodes.now quiet.items) }
{
    let mut quiet = Vec::new(alloc);
    for node in nodes {
        quiet.push(node.quiet_until())?;
    }
    Ok(quiet)
}

/// The sooner of two moments.
fn sooner(a: Millis, b: Millis) -> Millis
    ensures { (result.0 ≤ a.0) × (result.0 ≤ b.0) }
{
    Millis(a.0.min(b.0))
}

/// The soonest of all bounds; `NEVER` where nothing is due at all.
fn soonest_of(quiet: &[Millis]) -> Millis
    ensures { NoneIsSooner result quiet.now }
{
    let mut soonest = NEVER;
    for until in quiet {
        soonest = sooner(soonest, *until);
    }
    soonest
}

/// Looks anew until when no tick of the node of a number is due. The soonest bound may be lowered, and is never raised.
fn look_again(soonest: &mut Millis, quiet: &mut [Millis], nodes: &[PlayedNode], number: u16)
    requires within { number < length nodes.now }
    requires others { AreQuietBut number nodes.now quiet.old }
    requires soonest { NoneIsSooner soonest.old quiet.old }
    ensures { AreQuietWith soonest.new nodes.now quiet.new }
{
    let number = usize::from(number);
    let until = nodes[number].quiet_until();
    quiet[number] = until;
    *soonest = sooner(*soonest, until);
}

impl Nodes {
    /// All nodes of a topology, to which nothing happened yet. The seed is that of their random words.
    pub fn new(alloc: Global, topology: &Topology, seed: u64) -> Result<Nodes, NoMemory>
        /// The first nodes stand for the history without records, under the words of the seed.
        /// Needs: memory.
        ensures kept { IfOk result (λ nodes. (chain : List Behind) → NodesOf (lab_on (draws seed) topology.now chain) nodes []) }
        /// See `kept`.
        ensures few { IfOk result (λ nodes. length nodes ≤ NODES_MAX) }
        /// See `kept`.
        ensures ready { IfOk result (λ nodes. AreReady 0 nodes) }
    {
        let list = first_nodes(alloc, topology, seed)?;
        let quiet = quiet_of(alloc, list.as_slice())?;
        let soonest = soonest_of(quiet.as_slice());
        Ok(Nodes {
            list,
            quiet,
            soonest,
        })
    }

    /// The nodes in order.
    pub fn as_slice(&self) -> &[PlayedNode]
        /// See `Nodes::new`: `kept`.
        ensures { result.now ≡ self.now }
    {
        self.list.as_slice()
    }

    /// Lets the node of a call do what is asked of it. A packet that it sends besides its step stands in `room`.
    pub fn ask<'a>(
        &mut self,
        call: Call<'_>,
        step: &mut Step,
        room: &'a mut PacketRoom,
    ) -> Result<Asked<'a>, NoMemory>
        requires within { call.node < length self.old }
        requires short { IsShortInput (input_lent call.input) }
        requires early { call.now.0 < CLOCK_END_MS }
        requires ready { AreReady call.now.0 self.old }
        /// Memory runs out at a client or a relay alone, and only where the entry sends something, or may keep
        /// something. The node is then as before, and so is the step; a call leaves all other nodes. `WantsOnly`: as
        /// before is a node that stands for each past that it stood for. Each keeps its row (`ChangesAt`).
        ensures ready { AreReady call.entry.now.0 self.new }
        /// - For every past that a node stands for, it does what the next entry of its journal says, and then stands
        ///   for the past with that entry. It gives the step, how what it sends leaves it, the packet besides it, which
        ///   stands in the room that is lent for it, the length of what the host is handed, and the address that a
        ///   client got. It is stated in `Answers.antt`, what comes to a node in `Call.antt`, what a server is lent in
        ///   `OneArrival.antt`.
        ///   Needs: a moment of a clock, none before that of an earlier call; no more bytes than an event or a node may
        ///   give.
        ///   Leaves open: who asks, and what becomes of what is sent.
        /// - See `ready`.
        ensures answers { ChangesAt (AnswersOrWants call.entry step.old step.new result) call.entry.node self.old self.new }
        /// The packet that a node gives besides its step has no more bytes than an event may give.
        ensures short { IfOk result (λ asked. IfSome asked.packet (λ packet. length packet.bytes.now ≤ DATAGRAM_MAX)) }
    {
        let number = call.node;
        let asked = one_node::ask_at(&mut self.list, call, step, room);
        look_again(
            &mut self.soonest,
            &mut self.quiet,
            self.list.as_slice(),
            number,
        );
        asked
    }

    /// Lets the node of a number start anew. Of a NAT nothing is kept here that would change.
    pub fn restart_at(&mut self, number: u16, now: Millis)
        requires within { number < length self.old }
        requires early { now.0 < CLOCK_END_MS }
        /// See `restarts`.
        ensures ready { (m : ℕ) → AreReady m self.old → AreReady m self.new }
        /// A node that starts anew stands for its past with that; all others stay. A client's words go on.
        /// Leaves open: NATs, of which nothing is kept here.
        ensures restarts { ChangesAt (Restarts now.0) number self.old self.new }
    {
        one_node::restart_at(&mut self.list, number, now);
        look_again(
            &mut self.soonest,
            &mut self.quiet,
            self.list.as_slice(),
            number,
        );
    }

    /// The tick that is due first, of the node with the least number among those of one moment, where it is due by `end`.
    /// While the soonest bound is later than that, nothing is searched.
    pub fn first_due_by(&mut self, topology: &Topology, at: Millis, end: Millis) -> Option<Due>
        requires few { length self.old ≤ NODES_MAX }
        requires rows { AreOf topology.now self.old }
        requires ready { AreReady at.0 self.old }
        requires early { at.0 < CLOCK_END_MS }
        /// See `due`.
        ensures same { self.new ≡ self.old }
        /// See `due`.
        ensures within { IfSome result (λ x. x.node < length self.old) }
        /// See `due`.
        ensures early { IfSome result (λ x. x.moment.0 ≤ end.0) }
        /// The tick that is found is the first that is due, of the least node among those of one moment, and is due by
        /// the moment that is given. Where none is found none is due by then. The nodes stay. It is stated in
        /// `Due.antt`, with `legal/Next.antt`.
        /// Needs: the topology of these nodes; a moment of a clock, none before that of an earlier call.
        ensures due { (lab : Lab) (H : List Full) → NodesOf lab self.old H → at.0 ≡ now H
            → IfSome result (λ x. Some x ≡ option_map due_as (next.least_due lab H 0 (all.nodes lab.topology))) }
        /// See `due`.
        ensures none { (lab : Lab) (H : List Full) → NodesOf lab self.old H → at.0 ≡ now H
            → IfNone result (NoneIsDue end.0 (next.least_due lab H 0 (all.nodes lab.topology))) }
    {
        if end.0 < self.soonest.0 {
            return None;
        }
        let first = due::first_due(topology, self.list.as_slice(), self.quiet.as_slice(), at);
        let Some(due) = due::by(first, end) else {
            self.soonest = soonest_of(self.quiet.as_slice());
            return None;
        };
        Some(due)
    }
}
