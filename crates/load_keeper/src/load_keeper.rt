//! The loads of a history, kept outside of its nodes.
ghost use Rattle.std.specs.Prelude.{◌≡◌, ◌++◌, [], ◌∷◌, List, length, option_map, OnOk, IfOk, if◌then◌else◌, ◌+◌};
ghost use Rattle.history.specs.Full.{Full};
ghost use Rattle.loads.specs.Loads.{is_handing_in, load_at, loads};
ghost use Rattle.loads.specs.Sayings.{sayings_of};
ghost use Rattle.load_keeper.specs.Hearing.{load_by_act, load_that_goes_on, entries_by_marks, entry_by_mark};
ghost use Rattle.load_keeper.specs.Kept.{node_kept, nothing_kept};
ghost use Rattle.load_keeper.specs.Keeper.{kept_at, AreEmpty, AreKeptAfter, StandsForLoads, IsToldOf};

use crate::node_loads::NodeLoads;
use crate::ways::{is_handing_in, load_that_goes_on, number_delivered};
use history::{Act, Mark, Record};
use loads::{Load, Saying};
use std::alloc::Global;
use td_base::{Ep, Ip6, NoMemory};
use teredo_addr::UNSPECIFIED;
use topology::Topology;

/// What each entry of the wire carries, and what waits and is held at each node.
#[derive(Drop)]
pub struct LoadKeeper {
    /// How many packets hosts handed in.
    packets: u32,
    /// What each entry of the wire carries.
    pub(crate) wire: Vec<Option<Load>>,
    /// What each node keeps, by its number.
    pub(crate) nodes: Vec<NodeLoads>,
}

/// What the entry of a mark carries, put behind the others.
fn put_entry(mark: &Mark, load: Option<Load>, wire: &mut Vec<Option<Load>>) -> Result<(), NoMemory>
    ensures { OnOk result (wire.new.items ≡ wire.old.items ++ entry_by_mark mark.now load) }
{
    match mark {
        Mark::Lost { .. } => Ok(()),
        Mark::Udp { .. } => {
            wire.push(load)?;
            Ok(())
        }
        Mark::Six { .. } => {
            wire.push(load)?;
            Ok(())
        }
    }
}

/// The load of a number, if there is one.
fn load_at(loads: &[Option<Load>], i: usize) -> Option<Load>
    ensures { result ≡ load_at loads.now i }
{
    if i < loads.len() { loads[i] } else { None }
}

/// What the send of a number carries: what is released comes first, then this, and then nothing.
fn load_sent(released: &[Option<Load>], last: Option<Load>, i: usize) -> Option<Load>
    ensures { result ≡ load_at (released.now ++ last ∷ []) i }
{
    if i < released.len() {
        return released[i];
    }
    if i == released.len() {
        return last;
    }
    None
}

/// What the entries of a record's marks carry, put behind the others: what was released, and this.
fn put_entries(
    marks: &[Mark],
    released: &[Option<Load>],
    last: Option<Load>,
    wire: &mut Vec<Option<Load>>,
) -> Result<(), NoMemory>
    ensures { OnOk result (wire.new.items ≡ wire.old.items ++ entries_by_marks marks.now (released.now ++ last ∷ [])) }
{
    for (i, mark) in marks.iter().enumerate() {
        put_entry(mark, load_sent(released, last, i), wire)?;
    }
    Ok(())
}

/// As many nodes as there are, which keep nothing.
#[tactic(auto, using(crate::proofs::Stands::all_counted))]
fn empty_nodes(alloc: Global, t: &Topology) -> Result<Vec<NodeLoads>, NoMemory>
    ensures { IfOk result (λ nodes. AreEmpty t.now nodes.items) }
{
    let mut nodes = Vec::new(alloc);
    while t.node(nodes.len()).is_some() {
        nodes.push(NodeLoads::new(alloc))?;
    }
    Ok(nodes)
}

impl LoadKeeper {
    /// Nothing happened, and nothing is carried.
    pub fn new(alloc: Global, t: &Topology) -> Result<LoadKeeper, NoMemory>
        /// A new keeper stands for the history in which nothing happened.
        ensures { IfOk result (λ keeper. StandsForLoads t.now keeper []) }
    {
        let nodes = empty_nodes(alloc, t)?;
        Ok(LoadKeeper {
            packets: 0,
            wire: Vec::new(alloc),
            nodes,
        })
    }

    /// The load that an act gives its record.
    fn given(&self, act: Act) -> Option<Load>
        ensures { result ≡ load_by_act self.now.packets self.now.wire.items act }
    {
        if is_handing_in(act) {
            return Some(Load::Packet(self.packets));
        }
        match number_delivered(act) {
            None => None,
            Some(number) => load_at(&self.wire, number as usize),
        }
    }

    /// What a node keeps, and what nobody keeps, where there is none of that number.
    fn node<'a>(&'a self, number: Option<u16>, nobody: &'a NodeLoads) -> &'a NodeLoads
        requires { node_kept nobody.now ≡ nothing_kept }
        ensures { node_kept result.now ≡ kept_at self.now.nodes.items number }
    {
        let Some(number) = number else {
            return nobody;
        };
        match self.nodes.get(usize::from(number)) {
            None => nobody,
            Some(node) => node,
        }
    }

    /// Brings what the wire carries to what it is after a record.
    fn carry(
        &mut self,
        record: &Record,
        load: Option<Load>,
        released: &[Option<Load>],
    ) -> Result<(), NoMemory>
        ensures wire { OnOk result (self.new.wire.items ≡ self.old.wire.items ++ entries_by_marks record.now.marks (released.now ++ load_that_goes_on record.now.fate load ∷ [])) }
        ensures packets { self.new.packets ≡ self.old.packets }
        ensures nodes { self.new.nodes ≡ self.old.nodes }
    {
        let last = load_that_goes_on(record.fate, load);
        put_entries(record.marks.as_slice(), released, last, &mut self.wire)
    }

    /// Counts a packet that a host handed in.
    fn count(&mut self, act: Act) -> Result<(), NoMemory>
        ensures packets { OnOk result (self.new.packets ≡ (if is_handing_in act then self.old.packets + 1 else self.old.packets)) }
        ensures wire { self.new.wire ≡ self.old.wire }
        ensures nodes { self.new.nodes ≡ self.old.nodes }
    {
        if !is_handing_in(act) {
            return Ok(());
        }
        self.packets = self.packets.checked_add(1).ok_or(NoMemory)?;
        Ok(())
    }

    /// Brings what a node keeps to what it is after a record of its own.
    #[tactic(auto, using(crate::proofs::Nodes::none_changes, crate::proofs::Nodes::past_changes))]
    fn note(
        &mut self,
        t: &Topology,
        record: &Record,
        peer: Option<Ip6>,
        from: Option<Ep>,
        load: Option<Load>,
    ) -> Result<(), NoMemory>
        ensures nodes { OnOk result (AreKeptAfter t.now record.now peer from load self.old.nodes.items self.new.nodes.items) }
        ensures wire { self.new.wire ≡ self.old.wire }
        ensures packets { self.new.packets ≡ self.old.packets }
    {
        let Some(number) = record.node else {
            return Ok(());
        };
        let place = usize::from(number);
        if place >= self.nodes.len() {
            return Ok(());
        }
        self.nodes[place].note_record(t.node(place), record, peer, from, load)?;
        Ok(())
    }

    /// Brings the keeper to what it is after a record, and puts what that says of loads in place of what the list held. `peer`
    /// is the peer that the record is about, and `from` is where its datagram came from: of a record that is of no peer both may be
    /// anything.
    pub fn hear(
        &mut self,
        t: &Topology,
        record: &Record,
        peer: Option<Ip6>,
        from: Option<Ep>,
        said: &mut Vec<Saying>,
    ) -> Result<(), NoMemory>
        /// For every history that a keeper stands for, `hear` gives what the next record says of each load that it concerns, in
        /// order, and then the keeper stands for the history with that record.
        /// Needs: that peer and endpoint are the record's, where it is of a peer.
        ensures { (H : List Full) (r : Full) → StandsForLoads t.now self.old H → IsToldOf t.now H r record.now peer from
            → OnOk result (StandsForLoads t.now self.new (r ∷ H) × (said.new.items ≡ sayings_of t.now H (loads t.now H) r)) }
    {
        said.clear();
        let load = self.given(record.act);
        let who = peer.unwrap_or(UNSPECIFIED);
        let nobody = NodeLoads::new(*said.allocator());
        let node = self.node(record.node, &nobody);
        let released = node.say_all(record, load, who, from, said)?;
        self.carry(record, load, &released)?;
        self.note(t, record, peer, from, load)?;
        self.count(record.act)?;
        Ok(())
    }
}
