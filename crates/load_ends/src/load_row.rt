//! What is kept of one load.
ghost use Rattle.std.specs.Prelude.{◌≡◌, List};
ghost use Rattle.history.specs.Full.{Full};
ghost use Rattle.legal.specs.Past.{now};
ghost use Rattle.loads.specs.Loads.{loads};
ghost use Rattle.loads.specs.Ends.{NumberedSaying, is_arrival, end_of};
ghost use Rattle.topology.specs.Rows.{TopologyState};
ghost use Rattle.load_keeper.specs.Keeper.{StandsForLoads};
ghost use Rattle.load_ends.specs.Changes.{part_after_saying, part_with_entry};
ghost use Rattle.load_ends.specs.AtEnd.{part_in_end};

use load_keeper::LoadKeeper;
use loads::{End, Load, Way};
use td_base::Millis;

/// What records said of one load, and in the end the entry that carries it.
#[derive(Clone, Copy, Debug)]
pub struct LoadRow {
    /// The number of the first record that said that it arrives.
    pub arrived: Option<u64>,
    /// The number of the last record that said anything of it.
    pub last: Option<u64>,
    /// The least undelivered entry that carries it; it is looked for in the end.
    pub undelivered: Option<u32>,
}

/// A load of which nothing was said.
pub const UNSAID: LoadRow = LoadRow {
    arrived: None,
    last: None,
    undelivered: None,
};

/// Whether a load arrives by this.
pub fn is_arrival(way: &Way) -> bool
    ensures { result ≡ is_arrival way.now }
{
    match way {
        Way::Arrives => true,
        _ => false,
    }
}

impl LoadRow {
    /// What is kept once record number `index` said something of the load.
    pub fn after_saying(self, index: u64, arrives: bool) -> LoadRow
        ensures { result ≡ part_after_saying index arrives self }
    {
        let mut row = self;
        row.last = Some(index);
        if !arrives {
            return row;
        }
        if row.arrived.is_none() {
            row.arrived = Some(index);
        }
        row
    }

    /// What is kept once an entry is known that carries the load and wasn't delivered.
    pub fn with_entry(self, number: u32) -> LoadRow
        ensures { result ≡ part_with_entry number self }
    {
        let mut row = self;
        row.undelivered = Some(number);
        row
    }

    /// Where the load is, if anything was said of it. A keeper is asked only where it has not arrived.
    pub fn end(self, load: Load, keeper: &LoadKeeper, moment: Millis) -> Option<End>
        ensures { (t : TopologyState) (H : List Full) (ts : List NumberedSaying) → StandsForLoads t keeper.now H → moment.0 ≡ now H
            → self ≡ part_in_end H (loads t H).wire ts load → result ≡ end_of t H (loads t H) ts load }
    {
        if let Some(index) = self.arrived {
            return Some(End::Arrived(index));
        }
        if let Some(node) = keeper.waiting_node(load, moment) {
            return Some(End::WaitsAt(node));
        }
        if let Some(node) = keeper.holding_node(load, moment) {
            return Some(End::HeldAt(node));
        }
        if let Some(entry) = self.undelivered {
            return Some(End::OnWire(entry));
        }
        match self.last {
            None => None,
            Some(index) => Some(End::Lost(index)),
        }
    }
}
