//! What records say of each packet, as they are heard.
ghost use Rattle.std.specs.Prelude.{◌≡◌, ◌++◌, ◌∷◌, [], List, length, fold, OnOk};
ghost use Rattle.history.specs.Full.{Full};
ghost use Rattle.history.specs.Records.{record_of};
ghost use Rattle.loads.specs.Ends.{is_arrival};
ghost use Rattle.loads.specs.Loads.{is_handing_in, loads};
ghost use Rattle.loads.specs.Sayings.{sayings_of};
ghost use Rattle.topology.specs.Rows.{TopologyState};
ghost use Rattle.load_ends.specs.Changes.{rows_after_saying, rows_handed_in, rows_with_entry};
ghost use Rattle.load_ends.specs.Table.{TellsEnds};

use crate::ends_table::EndsTable;
use crate::load_row::{UNSAID, is_arrival};
use crate::packet_row::{PacketRow, packet_number};
use events::{EVENTS_MAX, Verb};
use history::{Act, Record};
use loads::{Load, Saying};
use std::alloc::Global;
use td_base::NoMemory;

/// Whether a host hands in a packet.
fn is_handing_in(act: Act) -> bool
    ensures { result ≡ is_handing_in act }
{
    match act {
        Act::Plain { verb: Verb::Host } => true,
        Act::Plain { verb: Verb::Echo } => true,
        Act::Plain { verb: Verb::Raw } => true,
        _ => false,
    }
}

impl EndsTable {
    /// No packet was handed in.
    pub fn new(alloc: Global) -> EndsTable
        /// A new table tells of the history in which nothing happened.
        ensures { (t : TopologyState) → TellsEnds t result [] }
    {
        EndsTable {
            rows: Vec::new(alloc),
        }
    }

    /// Adds a row where a packet is handed in. A scenario hands in no more than it has events.
    fn hand_in(&mut self, index: u64, act: Act, node: Option<u16>) -> Result<(), NoMemory>
        ensures { OnOk result (self.new.rows.items ≡ self.old.rows.items ++ rows_handed_in (is_handing_in act) index node) }
    {
        if !is_handing_in(act) {
            return Ok(());
        }
        if self.rows.len() >= EVENTS_MAX {
            return Err(NoMemory);
        }
        self.rows.push(PacketRow {
            record_number: index,
            node,
            packet: UNSAID,
            reply: UNSAID,
        })?;
        Ok(())
    }

    /// Notes that record number `index` said something of a load. What has no row is left out.
    fn note_saying(&mut self, index: u64, saying: &Saying)
        ensures { self.new.rows.items ≡ rows_after_saying index self.old.rows.items saying.now }
    {
        let load = saying.load;
        let place = packet_number(load) as usize;
        if place >= self.rows.len() {
            return;
        }
        let row = self.rows[place];
        let part = row.part(load).after_saying(index, is_arrival(&saying.way));
        self.rows[place] = row.with_part(load, part);
    }

    /// Notes all that record number `index` said.
    fn note_all(&mut self, index: u64, said: &[Saying])
        ensures { self.new.rows.items ≡ fold (rows_after_saying index) self.old.rows.items said.now }
    {
        for saying in said {
            self.note_saying(index, saying);
        }
    }

    /// Notes that an entry, which wasn't delivered, carries a load. What has no row is left out.
    pub(crate) fn note_entry(&mut self, load: Load, number: u32)
        ensures { self.new.rows.items ≡ rows_with_entry number load self.old.rows.items }
    {
        let place = packet_number(load) as usize;
        if place >= self.rows.len() {
            return;
        }
        let row = self.rows[place];
        let part = row.part(load).with_entry(number);
        self.rows[place] = row.with_part(load, part);
    }

    /// Brings the table to what it is after record number `index`, which said this of loads.
    pub fn hear(&mut self, index: u64, record: &Record, said: &[Saying]) -> Result<(), NoMemory>
        /// A table that tells of a history tells of it with the next record, once it has heard what that says of loads.
        /// Needs: that number and sayings are the record's.
        ensures { (t : TopologyState) (H : List Full) (r : Full) → TellsEnds t self.old H → record_of r ≡ record.now → index ≡ length H
            → said.now ≡ sayings_of t H (loads t H) r → OnOk result (TellsEnds t self.new (r ∷ H)) }
    {
        self.hand_in(index, record.act, record.node)?;
        self.note_all(index, said);
        Ok(())
    }
}
