//! The writer of what nodes keep.
ghost use Rattle.std.specs.Prelude.{◌≡◌, ◌≤◌, ◌+◌, ◌++◌, [], ◌∷◌, length, codes, decimal, refl};
ghost use Rattle.sink_lines.specs.Lines.{Writing};
ghost use Rattle.states.specs.StateLines.{concerned_lines};
ghost use Rattle.state_writer.specs.StateAccount.{state_account};

use crate::at_first::write_first;
use crate::at_record::write_record;
use events::Event;
use history::Record;
use player::{HearFault, Listener, WIRE_FULL_LINE};
use sink_lines::write_line;
use td_base::{LINE_LEN, LineBuf, NUMBER_LEN, print_number};
use td_outside::{Failed, Sink};
use topology::Topology;
use world::World;

/// Writes what each NAT, client and relay keeps before any record, and then what each record changed of it. In the end it
/// writes how many records there were.
#[derive(Drop)]
pub struct StateWriter<'a> {
    topology: &'a Topology,
    records: u64,
}

impl<'a> StateWriter<'a> {
    /// Before the first record of a scenario with these nodes.
    pub fn new(topology: &'a Topology) -> StateWriter<'a>
        /// The listener of states writes before any record the lines on what each NAT, client and relay keeps, in the
        /// order of the nodes; then of each record the lines on what it changed of its node, and of each NAT that let
        /// something of it out; and in the end how many records there are. It does so as a listener.
        /// Leaves open: that the lines so far, read in their order, are what each node keeps.
        ensures { (result.topology.now ≡ topology.now) × (result.records ≡ 0) }
    {
        StateWriter {
            topology,
            records: 0,
        }
    }
}

/// Appends a number.
fn put_count(count: u64, line: &mut LineBuf)
    requires { length line.old + NUMBER_LEN ≤ LINE_LEN }
    ensures text { line.new ≡ line.old ++ decimal count }
    ensures short { length line.new ≤ length line.old + NUMBER_LEN }
{
    let _ = print_number(count, line);
}

/// Puts the line of how many records there are in place of what the buffer held.
fn records_line(count: u64, line: &mut LineBuf)
    ensures { line.new ≡ codes "total records " ++ (decimal count ++ codes "\n") }
{
    line.clear();
    line.push_text(b"total records ");
    put_count(count, line);
    line.push_text(b"\n");
}

/// Writes how many records there are.
fn write_count<K: Sink>(records: u64, out: &mut K) -> Result<(), Failed>
    ensures { Writing (K.state out.old) (K.state out.new) ((codes "total records " ++ (decimal records ++ codes "\n")) ∷ []) result }
{
    let mut line = LineBuf::new();
    records_line(records, &mut line);
    write_line(out, line.as_slice())
}

impl Listener for StateWriter<'_> {
    ghost account = { state_account };

    ghost news = { concerned_lines };

    ghost keeps = { λ w t H. (w.topology.now ≡ t) × (w.records ≡ length H) };

    ghost grows = { λ t H r. refl };

    fn begin<K: Sink>(&self, out: &mut K) -> Result<(), Failed> {
        write_first(self.topology, out)
    }

    fn hear<K: Sink>(
        &mut self,
        world: &World,
        event: &Event,
        said: &Record,
        out: &mut K,
    ) -> Result<(), HearFault> {
        write_record(world, self.records, event, said, out)?;
        self.records += 1;
        Ok(())
    }

    fn end<K: Sink>(&mut self, _world: &World, out: &mut K) -> Result<(), Failed> {
        write_count(self.records, out)
    }

    fn break_off<K: Sink>(&self, out: &mut K) -> Result<(), Failed> {
        write_line(out, WIRE_FULL_LINE)
    }
}
