//! What a node keeps after a record of its own.
ghost use Rattle.std.specs.Prelude.{◌≡◌, OnOk};
ghost use Rattle.load_keeper.specs.Hearing.{effect_at, begins_anew, after_effect_on, node_after};
ghost use Rattle.load_keeper.specs.Kept.{node_kept, nothing_kept};

use crate::effect::{Effect, client_effect, relay_effect};
use crate::node_loads::NodeLoads;
use crate::ways::{is_changed_address, is_restart};
use history::Record;
use loads::Load;
use std::alloc::Global;
use td_base::{Ep, Ip6, Millis, NoMemory};
use teredo_node::Fate;
use topology::Node;

/// What a fate means for what a node keeps of its peers.
fn effect_at(node: Option<Node>, fate: Fate) -> Effect
    ensures { result ≡ effect_at node fate }
{
    match node {
        Some(Node::Client(_)) => client_effect(fate),
        Some(Node::Relay(_)) => relay_effect(fate),
        _ => Effect::Nothing,
    }
}

/// Whether a node begins with its peers anew.
fn begins_anew(node: Option<Node>, fate: Fate) -> bool
    ensures { result ≡ begins_anew node fate }
{
    match node {
        Some(Node::Client(_)) => is_changed_address(fate),
        _ => false,
    }
}

impl NodeLoads {
    /// Keeps nothing any more.
    fn clear(&mut self)
        ensures { node_kept self.new ≡ nothing_kept }
    {
        self.touches.clear();
        self.kept.clear();
    }

    /// The same as `note`, of a peer that may be missing.
    fn note_peer(
        &mut self,
        effect: Effect,
        peer: Option<Ip6>,
        now: Millis,
        from: Option<Ep>,
        load: Option<Load>,
    ) -> Result<(), NoMemory>
        ensures { OnOk result (node_kept self.new ≡ after_effect_on effect peer now.0 from load (node_kept self.old)) }
    {
        match peer {
            None => Ok(()),
            Some(who) => self.note(effect, who, now, from, load),
        }
    }

    /// Brings what the node keeps to what it is after a record.
    pub fn note_record(
        &mut self,
        node: Option<Node>,
        record: &Record,
        peer: Option<Ip6>,
        from: Option<Ep>,
        load: Option<Load>,
    ) -> Result<(), NoMemory>
        ensures { OnOk result (node_kept self.new ≡ node_after node record.now peer from load (node_kept self.old)) }
    {
        if is_restart(record.act) || begins_anew(node, record.fate) {
            self.clear();
            return Ok(());
        }
        let effect = effect_at(node, record.fate);
        self.note_peer(effect, peer, record.moment, from, load)
    }
}
