//! Where a load waits, where it is held, and what the wire carries.
ghost use Rattle.std.specs.Prelude.{◌≡◌, ◌<◌, List, length, IfSome};
ghost use Rattle.history.specs.Full.{Full};
ghost use Rattle.legal.specs.Past.{now};
ghost use Rattle.loads.specs.Ends.{is_load, waiting_node, holding_node};
ghost use Rattle.loads.specs.Loads.{loads};
ghost use Rattle.topology.specs.Rows.{TopologyState};
ghost use Rattle.load_keeper.specs.Kept.{node_kept};
ghost use Rattle.load_keeper.specs.Keeper.{StandsForLoads};
ghost use Rattle.load_keeper.specs.Queries.{carries_load, keeps_load, keeping_node};

use crate::kept_load::KeptLoad;
use crate::load_keeper::LoadKeeper;
use crate::node_loads::NodeLoads;
use loads::Load;
use td_base::Millis;

/// Whether something carries this load.
fn is_load(load: Load, carried: Option<Load>) -> bool
    ensures { result ≡ is_load load carried }
{
    match carried {
        None => false,
        Some(carried) => load == carried,
    }
}

/// Whether something is held, or waits, as is asked for, and carries the load.
fn carries_load(held: bool, load: Load, one: &KeptLoad) -> bool
    ensures { result ≡ carries_load held load one.now }
{
    if !is_load(load, one.load) {
        return false;
    }
    if held {
        one.from.is_some()
    } else {
        one.from.is_none()
    }
}

impl NodeLoads {
    /// Whether something of a peer that is listed carries the load.
    #[tactic(auto, using(std::proofs::lemmas::List::Folds::list_any_more, std::proofs::lemmas::List::Folds::list_any_at))]
    fn keeps_load(&self, held: bool, load: Load, moment: Millis) -> bool
        ensures { result ≡ keeps_load held load moment.0 (node_kept self.now) }
    {
        for one in &self.kept {
            if carries_load(held, load, one) {
                if self.lists(moment, one.who) {
                    return true;
                }
            }
        }
        false
    }
}

/// The first node that keeps the load.
fn keeping_node(nodes: &[NodeLoads], held: bool, load: Load, moment: Millis) -> Option<usize>
    ensures first { result ≡ keeping_node held load moment.0 nodes.now }
    ensures within { IfSome result (λ place. place < length nodes.now) }
{
    for (place, node) in nodes.iter().enumerate() {
        if node.keeps_load(held, load, moment) {
            return Some(place);
        }
    }
    None
}

/// The number of a node, as it is written.
fn number_of(place: Option<usize>) -> Option<u16>
    ensures { IfSome place (λ n. n < 65536) → result ≡ place }
{
    match place {
        None => None,
        Some(place) => u16::try_from(place).ok(),
    }
}

impl LoadKeeper {
    /// The first node at which a load waits, if one does.
    pub fn waiting_node(&self, load: Load, moment: Millis) -> Option<u16>
        /// The node that a keeper names is the first at which the load waits, after every history that the keeper stands
        /// for; where it names none, the load waits nowhere.
        /// Needs: the moment of the history.
        ensures { (t : TopologyState) (H : List Full) → StandsForLoads t self.now H → moment.0 ≡ now H → result ≡ waiting_node t H (loads t H) load }
    {
        number_of(keeping_node(&self.nodes, false, load, moment))
    }

    /// The first node that holds a load, if one does.
    pub fn holding_node(&self, load: Load, moment: Millis) -> Option<u16>
        /// The node that a keeper names is the first that holds the load, after every history that the keeper stands for;
        /// where it names none, no node holds it.
        /// Needs: the moment of the history.
        ensures { (t : TopologyState) (H : List Full) → StandsForLoads t self.now H → moment.0 ≡ now H → result ≡ holding_node t H (loads t H) load }
    {
        number_of(keeping_node(&self.nodes, true, load, moment))
    }

    /// What each entry of the wire carries, in order.
    pub fn wire(&self) -> &[Option<Load>]
        /// What a keeper lends is what each entry of the wire carries, after every history that the keeper stands for.
        ensures { (t : TopologyState) (H : List Full) → StandsForLoads t self.now H → result.now ≡ (loads t H).wire }
    {
        self.wire.as_slice()
    }
}
