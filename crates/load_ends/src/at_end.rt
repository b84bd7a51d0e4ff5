//! The lines at the end of a history.
ghost use Rattle.std.specs.Prelude.{◌≡◌, [], ◌∷◌, List, map, OnOk};
ghost use Rattle.topology.specs.Rows.{TopologyState};
ghost use Rattle.history.specs.Full.{Full};
ghost use Rattle.legal.specs.Lab.{Draws};
ghost use Rattle.legal.specs.Past.{now};
ghost use Rattle.loads.specs.Loads.{loads, load_at};
ghost use Rattle.loads.specs.Ends.{NumberedSaying, NumberedPacket, Whereabouts, all_sayings, whereabouts};
ghost use Rattle.loads.specs.FollowLines.{whereabouts_line, packets_line, end_lines};
ghost use Rattle.load_keeper.specs.Keeper.{StandsForLoads};
ghost use Rattle.load_lines.specs.Counts.{Counts};
ghost use Rattle.world.specs.World.{StandsFor};
ghost use Rattle.sink_lines.specs.Lines.{Writing};
ghost use Rattle.load_ends.specs.Table.{TellsEnds, row_told};
ghost use Rattle.load_ends.specs.AtEnd.{entries_from, rows_from, rows_by_entry, where_is, whereabouts_of};

use crate::ends_table::EndsTable;
use crate::packet_row::PacketRow;
use load_keeper::LoadKeeper;
use load_lines::{EndCounts, Packet, counts_line, whereabouts_line};
use loads::{End, Load};
use sink_lines::write_line;
use td_base::{LineBuf, Millis};
use td_outside::{Failed, Sink};
use topology::Topology;
use world::World;

/// Where a packet is in the end, and where its reply is.
#[derive(Clone, Copy, Debug)]
struct PacketEnds {
    packet: Packet,
    end: Option<End>,
    back: Option<End>,
}

/// The load of a number, if there is one.
fn load_at(loads: &[Option<Load>], i: usize) -> Option<Load>
    ensures { result ≡ load_at loads.now i }
{
    if i < loads.len() { loads[i] } else { None }
}

/// Where the packet of a row is, and where its reply is.
fn ends_of(row: PacketRow, number: u32, keeper: &LoadKeeper, moment: Millis) -> PacketEnds
    ensures { (t : TopologyState) (H : List Full) (ts : List NumberedSaying) (p : NumberedPacket) → StandsForLoads t keeper.now H → moment.0 ≡ now H
        → number ≡ p.number → row ≡ row_told ts (entries_from H (loads t H).wire 0) p → where_is result ≡ whereabouts_of t H ts p }
{
    PacketEnds {
        packet: Packet {
            number: u64::from(number),
            record: row.record_number,
            node: row.node,
        },
        end: row.packet.end(Load::Packet(number), keeper, moment),
        back: row.reply.end(Load::ReplyTo(number), keeper, moment),
    }
}

/// Writes the line on a packet.
fn write_packet<K: Sink>(t: &Topology, ends: PacketEnds, out: &mut K) -> Result<(), Failed>
    ensures { Writing (K.state out.old) (K.state out.new) (whereabouts_line t.now (where_is ends) ∷ []) result }
{
    let mut line = LineBuf::new();
    whereabouts_line(t, ends.packet, ends.end, ends.back, &mut line);
    write_line(out, line.as_slice())
}

/// Writes the line on how many packets have each end.
fn write_counts<K: Sink>(counts: EndCounts, out: &mut K) -> Result<(), Failed>
    ensures { (ws : List Whereabouts) → Counts counts ws → Writing (K.state out.old) (K.state out.new) (packets_line ws ∷ []) result }
{
    let mut line = LineBuf::new();
    counts_line(counts, &mut line);
    write_line(out, line.as_slice())
}

impl EndsTable {
    /// Notes that an entry carries a load, where it carries one and was not delivered.
    fn note_undelivered(&mut self, load: Option<Load>, number: u32, delivered: bool)
        ensures { self.new.rows.items ≡ rows_by_entry number load delivered self.old.rows.items }
    {
        if delivered {
            return;
        }
        let Some(load) = load else {
            return;
        };
        self.note_entry(load, number);
    }

    /// Notes of each load the least undelivered entry that carries it. The entries are gone through from the last one to the
    /// first, so that the least one stands there in the end.
    fn note_wire(&mut self, wire: &[Option<Load>], world: &World)
        ensures { (d : Draws) (H : List Full) → StandsFor d world.now H → TellsEnds world.now.topology self.old H → wire.now ≡ (loads world.now.topology H).wire
            → self.new.rows.items ≡ rows_from world.now.topology H 0 }
    {
        let mut number = world.entries();
        'entries: while number > 0 {
            number -= 1;
            let load = load_at(wire, number as usize);
            let delivered = world.was_delivered(number);
            self.note_undelivered(load, number, delivered);
        }
    }

    /// Writes a line on each packet, and counts their ends.
    fn write_packets<K: Sink>(
        &self,
        keeper: &LoadKeeper,
        world: &World,
        counts: &mut EndCounts,
        out: &mut K,
    ) -> Result<(), Failed>
        requires none { Counts counts.old [] }
        ensures written { (d : Draws) (H : List Full) → StandsFor d world.now H → StandsForLoads world.now.topology keeper.now H
            → self.now.rows.items ≡ rows_from world.now.topology H 0
            → Writing (K.state out.old) (K.state out.new) (map (whereabouts_line world.now.topology) (whereabouts world.now.topology H (loads world.now.topology H) (all_sayings world.now.topology H))) result }
        ensures counted { (d : Draws) (H : List Full) → StandsFor d world.now H → StandsForLoads world.now.topology keeper.now H
            → self.now.rows.items ≡ rows_from world.now.topology H 0
            → OnOk result (Counts counts.new (whereabouts world.now.topology H (loads world.now.topology H) (all_sayings world.now.topology H))) }
    {
        for (place, row) in self.rows.iter().enumerate() {
            let ends = ends_of(*row, place as u32, keeper, world.moment());
            write_packet(world.topology(), ends, out)?;
            counts.add(ends.end);
        }
        Ok(())
    }

    /// Writes the lines at the end of a history: a line on each packet, and the last one.
    pub fn write_ends<K: Sink>(
        &mut self,
        keeper: &LoadKeeper,
        world: &World,
        out: &mut K,
    ) -> Result<(), Failed>
        /// What is written in the end is a line on each packet that was handed in, in order, with where it is and where its
        /// reply is, and then how many have each end; or the sink failed, and a front of that was written.
        /// Needs: that table, keeper and world are of one history.
        ensures { (d : Draws) (H : List Full) → TellsEnds world.now.topology self.old H → StandsForLoads world.now.topology keeper.now H → StandsFor d world.now H
            → Writing (K.state out.old) (K.state out.new) (end_lines world.now.topology H) result }
    {
        self.note_wire(keeper.wire(), world);
        let mut counts = EndCounts::new();
        self.write_packets(keeper, world, &mut counts, out)?;
        write_counts(counts, out)
    }
}
