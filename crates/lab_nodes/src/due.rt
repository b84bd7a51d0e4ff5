//! Which tick is due first.
ghost use Rattle.std.specs.Prelude.{◌≡◌, ◌≤◌, ◌<◌, ◌+◌, ℕ, false, if◌then◌else◌, List, length, Option, Some, None, option_map, IfSome, IfNone};
ghost use Rattle.td_base.specs.declared.millis.TheConstants.{CLOCK_END_MS};
ghost use Rattle.peer_list.specs.Overdue.{IsNoSooner};
ghost use Rattle.topology.specs.declared.topology.TheConstants.{NODES_MAX};
ghost use Rattle.topology.specs.Topology as all;
ghost use Rattle.history.specs.Full.{Full};
ghost use Rattle.legal.specs.Lab.{Lab};
ghost use Rattle.legal.specs.Past.{now};
ghost use Rattle.legal.specs.Next as next;
ghost use Rattle.lab_nodes.specs.PlayedNode.{row_of, past_of, IsKept, AreOf, NodesOf, IsReady, AreReady};
ghost use Rattle.lab_nodes.specs.Due.{due_as, tick_moment, tick_of, NoneIsDue, AreQuiet};

use crate::played_node::PlayedNode;
use td_base::Millis;
use topology::Topology;

/// A node, by its number, and the moment at which a tick of it is due.
#[derive(Clone, Copy, Debug)]
pub struct Due {
    pub moment: Millis,
    pub node: u16,
}

/// Whether a tick of a node may be due before the first one so far, where none of it is due until a moment. It may say that
/// one is where none is.
fn may_come_first(first: &Option<Due>, until: Millis) -> bool
    ensures { result ≡ false → (f x : Option next.DueNode) → first.now ≡ option_map due_as f → IsNoSooner until.0 (option_map tick_moment x)
        → next.earlier f x ≡ f }
{
    match first {
        Some(one) => until.0 < one.moment.0,
        None => true,
    }
}

/// Whether a tick at a moment is due before the first one so far, if there is one.
fn comes_first(first: &Option<Due>, moment: Millis) -> bool
    ensures { (f : Option next.DueNode) (x : next.DueNode) → first.now ≡ option_map due_as f → x.moment ≡ moment.0
        → next.earlier f (Some x) ≡ (if result then Some x else f) }
{
    match first {
        None => true,
        Some(one) => moment.0 < one.moment.0,
    }
}

/// Puts the tick of the node of a number in the place of the first one, where it is due earlier.
fn put_earlier(first: &mut Option<Due>, number: u16, node: &PlayedNode, at: Millis)
    requires ready { IsReady at.0 node.now }
    requires early { at.0 < CLOCK_END_MS }
    ensures within { (k : ℕ) → number < k → IfSome first.old (λ x. x.node < k) → IfSome first.new (λ x. x.node < k) }
    ensures earlier { (lab : Lab) (H : List Full) (f : Option next.DueNode)
        → IsKept lab.topology number (past_of lab number H) node.now → first.old ≡ option_map due_as f
        → first.new ≡ option_map due_as (next.earlier f (tick_of lab H at.0 number (row_of node.now))) }
{
    let Some(moment) = node.due(at) else {
        return;
    };
    if comes_first(first, moment) {
        *first = Some(Due {
            moment,
            node: number,
        });
    }
}

/// The number of the first node that may have a tick. Servers and NATs have none.
fn ticking_from(topology: &Topology) -> usize
    ensures { result ≡ length topology.now.servers + length topology.now.nats }
{
    topology.servers().len() + topology.nats().len()
}

/// The number behind the last node that may have a tick: clients and relays may. Native hosts have none.
fn ticking_until(topology: &Topology) -> usize
    ensures { result ≡ length topology.now.servers + length topology.now.nats + length topology.now.clients + length topology.now.relays }
{
    ticking_from(topology) + topology.clients().len() + topology.relays().len()
}

/// The tick that is due first, of the node with the least number among those of one moment. Only the few clients and
/// relays are asked that aren't known to be quiet and may come before all those in front of them.
pub fn first_due(
    topology: &Topology,
    nodes: &[PlayedNode],
    quiet: &[Millis],
    at: Millis,
) -> Option<Due>
    requires quiet { AreQuiet nodes.now quiet.now }
    requires few { length nodes.now ≤ NODES_MAX }
    requires rows { AreOf topology.now nodes.now }
    requires ready { AreReady at.0 nodes.now }
    requires early { at.0 < CLOCK_END_MS }
    ensures within { IfSome result (λ x. x.node < length nodes.now) }
    ensures first { (lab : Lab) (H : List Full) → NodesOf lab nodes.now H → at.0 ≡ now H
        → result ≡ option_map due_as (next.least_due lab H 0 (all.nodes lab.topology)) }
{
    let end = ticking_until(topology);
    let mut number = ticking_from(topology);
    let mut first = None;
    'ticking: while number < end {
        let node = &nodes[number];
        let until = quiet[number];
        if may_come_first(&first, until) {
            put_earlier(&mut first, number as u16, node, at);
        }
        number += 1;
    }
    first
}

/// The tick that is due first, where it is due by a moment.
pub fn by(first: Option<Due>, end: Millis) -> Option<Due>
    ensures within { (k : ℕ) → IfSome first (λ x. x.node < k) → IfSome result (λ x. x.node < k) }
    ensures early { IfSome result (λ x. x.moment.0 ≤ end.0) }
    ensures due { (f : Option next.DueNode) → first ≡ option_map due_as f → IfSome result (λ x. Some x ≡ option_map due_as f) }
    ensures none { (f : Option next.DueNode) → first ≡ option_map due_as f → IfNone result (NoneIsDue end.0 f) }
{
    let Some(one) = first else {
        return None;
    };
    if end.0 < one.moment.0 {
        return None;
    }
    Some(one)
}
