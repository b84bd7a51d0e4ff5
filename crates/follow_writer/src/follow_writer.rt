//! The writer of where packets went.
ghost use Rattle.std.specs.Prelude.{◌≡◌, ◌∷◌, [], List, ℕ, length, map, IfOk, OnOk};
ghost use Rattle.std.proofs.lemmas.List.{map-append};
ghost use Rattle.topology.specs.Rows.{TopologyState};
ghost use Rattle.history.specs.Full.{Full};
ghost use Rattle.history.specs.Records.{record_of};
ghost use Rattle.loads.specs.Ends.{saying_by};
ghost use Rattle.loads.specs.FollowLines.{told_line};
ghost use Rattle.loads.specs.Loads.{loads};
ghost use Rattle.loads.specs.Sayings.{sayings_of};
ghost use Rattle.load_keeper.specs.Keeper.{StandsForLoads, IsToldOf};
ghost use Rattle.load_ends.specs.Table.{TellsEnds};
ghost use Rattle.sink_lines.specs.Lines.{Writing};
ghost use Rattle.follow_writer.specs.FollowAccount.{follow_account, record_follows};
ghost use Rattle.follow_writer.specs.Keeps.{FollowsPackets};

use crate::told::{peer_of, source_of};
use events::Event;
use history::Record;
use load_ends::EndsTable;
use load_keeper::LoadKeeper;
use load_lines::said_line;
use loads::Saying;
use player::{HearFault, Listener, WIRE_FULL_LINE};
use sink_lines::write_line;
use std::alloc::Global;
use td_base::{Ep, Ip6, LineBuf, NoMemory};
use td_outside::{Failed, Sink};
use topology::Topology;
use world::World;

/// Writes of each record what it does with each packet that it concerns, and in the end where each packet is.
#[derive(Drop)]
pub struct FollowWriter<'a> {
    topology: &'a Topology,
    /// What entries carry, and what waits and is held at each node.
    keeper: LoadKeeper,
    /// What records said of each packet.
    ends: EndsTable,
    /// What the last record said: room that is used again.
    said: Vec<Saying>,
    /// How many records there were.
    records: u64,
}

impl<'a> FollowWriter<'a> {
    /// Before the first record of a scenario with these nodes.
    pub fn new(alloc: Global, topology: &'a Topology) -> Result<FollowWriter<'a>, NoMemory>
        /// The listener of packets writes of each record the lines on what that does with each load that it concerns, in
        /// order; and in the end a line on where each packet is, in order, and how many have each end. It does so as a
        /// listener.
        /// Needs: memory.
        ensures { IfOk result (λ writer. FollowsPackets writer topology.now []) }
    {
        Ok(FollowWriter {
            topology,
            keeper: LoadKeeper::new(alloc, topology)?,
            ends: EndsTable::new(alloc),
            said: Vec::new(alloc),
            records: 0,
        })
    }

    /// Brings what is kept to what it is after a record, and puts what that says of loads in place of what the last one said.
    fn note(&mut self, said: &Record, peer: Option<Ip6>, from: Option<Ep>) -> Result<(), NoMemory>
        ensures topology { self.new.topology ≡ self.old.topology }
        ensures records { self.new.records ≡ self.old.records }
        ensures noted { (H : List Full) (r : Full) → FollowsPackets self.old self.old.topology.now H → IsToldOf self.old.topology.now H r said.now peer from
            → OnOk result (StandsForLoads self.old.topology.now self.new.keeper (r ∷ H) × TellsEnds self.old.topology.now self.new.ends (r ∷ H)
            × (self.new.said.items ≡ sayings_of self.old.topology.now H (loads self.old.topology.now H) r)) }
    {
        self.keeper
            .hear(self.topology, said, peer, from, &mut self.said)?;
        self.ends.hear(self.records, said, &self.said)?;
        Ok(())
    }
}

/// Writes the line on what a record says of a load.
fn write_saying<K: Sink>(
    topology: &Topology,
    index: u64,
    said: &Record,
    saying: &Saying,
    out: &mut K,
) -> Result<(), Failed>
    ensures { (r : Full) → record_of r ≡ said.now → Writing (K.state out.old) (K.state out.new) (told_line topology.now (saying_by index r saying.now) ∷ []) result }
{
    let mut line = LineBuf::new();
    said_line(topology, index, said, saying, &mut line);
    write_line(out, line.as_slice())
}

/// Writes a line on each of these sayings of a record, in order.
fn write_said<K: Sink>(
    topology: &Topology,
    index: u64,
    said: &Record,
    sayings: &[Saying],
    out: &mut K,
) -> Result<(), Failed>
    ensures { (r : Full) → record_of r ≡ said.now
        → Writing (K.state out.old) (K.state out.new) (map (told_line topology.now) (map (saying_by index r) sayings.now)) result }
{
    let [saying, rest @ ..] = sayings else {
        return Ok(());
    };
    write_saying(topology, index, said, saying, out)?;
    write_said(topology, index, said, rest, out)
}

impl Listener for FollowWriter<'_> {
    ghost account = { follow_account };

    ghost news = { record_follows };

    ghost keeps = { FollowsPackets };

    ghost grows = { λ t H r. map-append _ _ _ };

    fn begin<K: Sink>(&self, _out: &mut K) -> Result<(), Failed> {
        Ok(())
    }

    fn hear<K: Sink>(
        &mut self,
        world: &World,
        _event: &Event,
        said: &Record,
        out: &mut K,
    ) -> Result<(), HearFault> {
        let peer = peer_of(world, said);
        let from = source_of(world, said.act);
        self.note(said, peer, from)?;
        write_said(self.topology, self.records, said, &self.said, out)?;
        self.records += 1;
        Ok(())
    }

    fn end<K: Sink>(&mut self, world: &World, out: &mut K) -> Result<(), Failed> {
        self.ends.write_ends(&self.keeper, world, out)
    }

    fn break_off<K: Sink>(&self, out: &mut K) -> Result<(), Failed> {
        write_line(out, WIRE_FULL_LINE)
    }
}
