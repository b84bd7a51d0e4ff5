//! The writer of who reaches whom.
ghost use Rattle.std.specs.Prelude.{◌≡◌, ◌+◌, ◌*◌, ◌≤◌, ◌<◌, ℕ, [], ◌∷◌, List, length, refl};
ghost use Rattle.std.specs.List.{range_with_len};
ghost use Rattle.topology.specs.declared.topology.TheConstants.{NODES_MAX};
ghost use Rattle.topology.specs.Topology.{nodes};
ghost use Rattle.history.specs.Full.{Full};
ghost use Rattle.legal.specs.Lab.{Draws};
ghost use Rattle.theory_reaching.specs.ReachLines.{Said, said_line, said_total, said_from, said_of_each};
ghost use Rattle.world.specs.World.{StandsFor, lab_in};
ghost use Rattle.sink_lines.specs.Lines.{Writing};
ghost use Rattle.reach_query.specs.ReachAccount.{reach_account};
ghost use Rattle.reach_query.specs.PairLines.{counted_pairs, AreCountsWithin, SaysPairs};

use crate::pair_counts::{PAIRS_MAX, PairCounts};
use crate::pair_line::{pair_line, pairs_total};
use crate::two_hosts::{is_host, word_on};
use events::Event;
use history::Record;
use player::{HearFault, Listener, WIRE_FULL_LINE};
use sink_lines::write_line;
use td_base::LineBuf;
use td_outside::{Failed, Sink};
use theory_reaching::Reach;
use topology::Topology;
use world::World;

/// How many nodes there are.
#[tactic(auto, using(crate::proofs::PairNumbers::nodes_counted))]
fn node_count(topology: &Topology) -> u16
    ensures count { result ≡ length (nodes topology.now) }
    ensures most { result ≤ NODES_MAX }
{
    let servers_and_nats = topology.servers().len() + topology.nats().len();
    let hosts = topology.clients().len() + topology.natives().len();
    (servers_and_nats + hosts + topology.relays().len()) as u16
}

/// Writes the line on two nodes.
fn write_word<K: Sink>(
    topology: &Topology,
    from: u16,
    to: u16,
    word: Reach,
    out: &mut K,
) -> Result<(), Failed>
    ensures { Writing (K.state out.old) (K.state out.new) (said_line topology.now (record { from = from; to = to; said = word }) ∷ []) result }
{
    let mut line = LineBuf::new();
    pair_line(topology, from, to, word, &mut line);
    write_line(out, line.as_slice())
}

/// Writes the line on two nodes and counts them, if there is a word on them.
fn write_pair<K: Sink>(
    topology: &Topology,
    world: &World,
    from: u16,
    to: u16,
    counts: &mut PairCounts,
    out: &mut K,
) -> Result<(), Failed>
    requires few { AreCountsWithin PAIRS_MAX counts.old }
    ensures said { (d : Draws) (H : List Full) → StandsFor d world.now H → SaysPairs topology.now
        (said_from (lab_in d world.now) H (to ∷ []) from) (K.state out.old) (K.state out.new) counts.old counts.new result }
    ensures few { (most : ℕ) → AreCountsWithin most counts.old → AreCountsWithin (most + 1) counts.new }
{
    let Some(word) = word_on(world, from, to) else {
        return Ok(());
    };
    write_word(topology, from, to, word, out)?;
    counts.add(word);
    Ok(())
}

/// Writes the lines from one node to each other one, in their order.
fn write_from<K: Sink>(
    topology: &Topology,
    world: &World,
    from: u16,
    counts: &mut PairCounts,
    out: &mut K,
) -> Result<(), Failed>
    requires from { from < NODES_MAX }
    requires few { AreCountsWithin (from * NODES_MAX) counts.old }
    ensures said { (d : Draws) (H : List Full) → StandsFor d world.now H → SaysPairs topology.now
        (said_from (lab_in d world.now) H (range_with_len 0 (length (nodes topology.now))) from)
        (K.state out.old) (K.state out.new) counts.old counts.new result }
    ensures few { AreCountsWithin ((from + 1) * NODES_MAX) counts.new }
{
    if !is_host(world, from) {
        return Ok(());
    }
    let mut to = 0;
    let end = node_count(topology);
    'others: while to < end {
        write_pair(topology, world, from, to, counts, out)?;
        to += 1;
    }
    Ok(())
}

/// Writes the lines from each node to each other one, in their order.
fn write_pairs<K: Sink>(
    topology: &Topology,
    world: &World,
    counts: &mut PairCounts,
    out: &mut K,
) -> Result<(), Failed>
    requires few { AreCountsWithin 0 counts.old }
    ensures { (d : Draws) (H : List Full) → StandsFor d world.now H → SaysPairs topology.now
        (said_of_each (lab_in d world.now) H (range_with_len 0 (length (nodes topology.now))))
        (K.state out.old) (K.state out.new) counts.old counts.new result }
{
    let mut from = 0;
    let end = node_count(topology);
    'nodes: while from < end {
        write_from(topology, world, from, counts, out)?;
        from += 1;
    }
    Ok(())
}

/// Writes the line of the counts.
fn write_pairs_total<K: Sink>(counts: &PairCounts, out: &mut K) -> Result<(), Failed>
    ensures { (ps : List Said) → counts.now ≡ counted_pairs ps
        → Writing (K.state out.old) (K.state out.new) (said_total ps ∷ []) result }
{
    let mut line = LineBuf::new();
    pairs_total(counts, &mut line);
    write_line(out, line.as_slice())
}

/// Writes nothing while it hears, and at the end a line on each two hosts of which one is a client: what becomes of the next
/// packet from the one to the other. Then it writes how many pairs there are.
#[derive(Drop)]
pub struct ReachWriter<'a> {
    topology: &'a Topology,
}

impl<'a> ReachWriter<'a> {
    /// Before the first record of a scenario with these nodes.
    pub fn new(topology: &'a Topology) -> ReachWriter<'a>
        /// The listener of who reaches whom writes nothing of a record, and behind the last one a line on each pair of
        /// nodes on which there is a word, in their order, and then how many there are, by what is said of them. It
        /// does so as a listener.
        /// Leaves open: what a word promises, which `theory_reaching` says.
        ensures { result.topology.now ≡ topology.now }
    {
        ReachWriter { topology }
    }
}

impl Listener for ReachWriter<'_> {
    ghost account = { reach_account };

    ghost news = { λ t H r. [] };

    ghost keeps = { λ w t H. w.topology.now ≡ t };

    ghost grows = { λ t H r. refl };

    fn begin<K: Sink>(&self, _out: &mut K) -> Result<(), Failed> {
        Ok(())
    }

    fn hear<K: Sink>(
        &mut self,
        _world: &World,
        _event: &Event,
        _said: &Record,
        _out: &mut K,
    ) -> Result<(), HearFault> {
        Ok(())
    }

    fn end<K: Sink>(&mut self, world: &World, out: &mut K) -> Result<(), Failed> {
        let mut counts = PairCounts::new();
        write_pairs(self.topology, world, &mut counts, out)?;
        write_pairs_total(&counts, out)
    }

    fn break_off<K: Sink>(&self, out: &mut K) -> Result<(), Failed> {
        write_line(out, WIRE_FULL_LINE)
    }
}
