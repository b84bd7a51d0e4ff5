//! The lines on the NATs that let something of a record out.
ghost use Rattle.std.specs.Prelude.{◌≡◌, ◌<◌, ◌≤◌, [], length, ◌∷◌, List, Some, map, drop, reverse, true, option_to_list};
ghost use Rattle.std.specs.List.{flat_map};
ghost use Rattle.td_base.specs.declared.millis.TheConstants.{CLOCK_END_MS};
ghost use Rattle.topology.specs.Named.{is_nat};
ghost use Rattle.topology.specs.Topology.{node_at};
ghost use Rattle.topology.specs.Chains.{nat_set_up, way_out};
ghost use Rattle.td_chain.specs.Walk.{walk};
ghost use Rattle.history.specs.Full.{Full};
ghost use Rattle.history.specs.Records.{record_of};
ghost use Rattle.legal.specs.Lab.{Draws};
ghost use Rattle.legal.specs.Past.{nat_pasts};
ghost use Rattle.world.specs.World.{StandsFor, lab_in};
ghost use Rattle.states.specs.Kept.{at_node, port_fact, lets_fact};
ghost use Rattle.states.specs.Concerned.{passed_facts, passing_facts};
ghost use Rattle.states.specs.Walked.{walk_of, walk_marked, walk_lost};
ghost use Rattle.state_writer.specs.Writes.{WritesFacts};

use crate::at_node::client_row;
use history::{Loss, Mark, Record};
use nat_kinds::Outward;
use sink_lines::write_line;
use state_lines::{passed_lets_line, passed_port_line};
use td_base::{Ep, LineBuf};
use td_chain::Sending;
use td_outside::{Failed, Sink};
use topology::{ClientNode, Topology};
use world::World;

/// Writes the line on the port by which a NAT let a datagram out.
fn write_port<K: Sink>(
    topology: &Topology,
    index: u64,
    nat: u16,
    sent: Outward,
    out: &mut K,
) -> Result<(), Failed>
    requires early { sent.moment.0 < CLOCK_END_MS }
    ensures { WritesFacts topology.now (Some index) sent.moment.0 (K.state out.old) (K.state out.new)
        (map (at_node nat) (port_fact (nat_set_up topology.now nat) sent ∷ [])) result }
{
    let mut line = LineBuf::new();
    passed_port_line(topology, Some(index), nat, sent, &mut line);
    write_line(out, line.as_slice())
}

/// Writes the line on whom a NAT lets in since it let a datagram out, where that is said of its kind.
fn write_lets<K: Sink>(
    topology: &Topology,
    index: u64,
    nat: u16,
    sent: Outward,
    out: &mut K,
) -> Result<(), Failed>
    requires early { sent.moment.0 < CLOCK_END_MS }
    ensures { WritesFacts topology.now (Some index) sent.moment.0 (K.state out.old) (K.state out.new)
        (map (at_node nat) (option_to_list (lets_fact (nat_set_up topology.now nat) sent.port sent))) result }
{
    let mut line = LineBuf::new();
    if !passed_lets_line(topology, Some(index), nat, sent, &mut line) {
        return Ok(());
    }
    write_line(out, line.as_slice())
}

/// Writes the lines on a datagram that a NAT let out.
fn write_sent<K: Sink>(
    topology: &Topology,
    index: u64,
    nat: u16,
    sent: Outward,
    out: &mut K,
) -> Result<(), Failed>
    requires early { sent.moment.0 < CLOCK_END_MS }
    ensures { WritesFacts topology.now (Some index) sent.moment.0 (K.state out.old) (K.state out.new)
        (map (at_node nat) (passed_facts (nat_set_up topology.now nat) sent)) result }
{
    write_port(topology, index, nat, sent, out)?;
    write_lets(topology, index, nat, sent, out)
}

/// Writes the lines on what a walk along a datagram's way shows from a place on.
fn write_walk<K: Sink>(
    world: &World,
    index: u64,
    sending: Sending,
    place: usize,
    out: &mut K,
) -> Result<(), Failed>
    requires place { place ≤ length world.now.chain }
    requires moment { sending.now.0 ≡ world.now.moment }
    requires early { world.now.moment < CLOCK_END_MS }
    requires nat { is_nat (node_at world.now.topology sending.nat) ≡ true }
    ensures { (d : Draws) (H : List Full) → StandsFor d world.now H
        → WritesFacts world.now.topology (Some index) world.now.moment (K.state out.old) (K.state out.new)
        (flat_map (passing_facts world.now.topology) (drop place (walk world.now.topology (nat_pasts (lab_in d world.now) H) world.now.moment sending.dst
        (way_out world.now.chain sending.nat) sending.inside))) result }
{
    let Some(let_out) = world.nats().walked(sending, place) else {
        return Ok(());
    };
    let sent = Outward {
        moment: sending.now,
        ..let_out.datagram
    };
    write_sent(world.topology(), index, let_out.nat, sent, out)?;
    if place == world.nats().nestings() {
        return Ok(());
    }
    write_walk(world, index, sending, place + 1, out)
}

/// Writes the lines on what the NATs of a client let out of a datagram.
fn write_way<K: Sink>(
    world: &World,
    index: u64,
    client: &ClientNode,
    dst: Ep,
    out: &mut K,
) -> Result<(), Failed>
    requires early { world.now.moment < CLOCK_END_MS }
    requires nat { is_nat (node_at world.now.topology client.now.nat) ≡ true }
    ensures { (d : Draws) (H : List Full) → StandsFor d world.now H
        → WritesFacts world.now.topology (Some index) world.now.moment (K.state out.old) (K.state out.new)
        (flat_map (passing_facts world.now.topology) (walk_of (lab_in d world.now) H world.now.moment client.now dst)) result }
{
    let sending = Sending {
        now: world.moment(),
        nat: client.nat,
        inside: client.inside,
        dst,
    };
    write_walk(world, index, sending, 0, out)
}

/// The same of a datagram that was lost: one that was to fail came to no NAT.
fn write_lost<K: Sink>(
    world: &World,
    index: u64,
    client: &ClientNode,
    why: Loss,
    dst: Ep,
    out: &mut K,
) -> Result<(), Failed>
    requires early { world.now.moment < CLOCK_END_MS }
    requires nat { is_nat (node_at world.now.topology client.now.nat) ≡ true }
    ensures { (d : Draws) (H : List Full) → StandsFor d world.now H
        → WritesFacts world.now.topology (Some index) world.now.moment (K.state out.old) (K.state out.new)
        (flat_map (passing_facts world.now.topology) (walk_lost (walk_of (lab_in d world.now) H world.now.moment client.now) why dst)) result }
{
    match why {
        Loss::Fault => Ok(()),
        Loss::Hairpin => write_way(world, index, client, dst, out),
        Loss::Full => write_way(world, index, client, dst, out),
    }
}

/// The same by the mark of a send.
fn write_marked<K: Sink>(
    world: &World,
    index: u64,
    client: &ClientNode,
    mark: Mark,
    out: &mut K,
) -> Result<(), Failed>
    requires early { world.now.moment < CLOCK_END_MS }
    requires nat { is_nat (node_at world.now.topology client.now.nat) ≡ true }
    ensures { (d : Draws) (H : List Full) → StandsFor d world.now H
        → WritesFacts world.now.topology (Some index) world.now.moment (K.state out.old) (K.state out.new)
        (flat_map (passing_facts world.now.topology) (walk_marked (walk_of (lab_in d world.now) H world.now.moment client.now) mark)) result }
{
    match mark {
        Mark::Udp { dst, .. } => write_way(world, index, client, dst, out),
        Mark::Six { .. } => Ok(()),
        Mark::Lost { why, dst, .. } => write_lost(world, index, client, why, dst, out),
    }
}

/// The same by all marks, in their order.
fn write_marks<K: Sink>(
    world: &World,
    index: u64,
    client: &ClientNode,
    marks: &[Mark],
    out: &mut K,
) -> Result<(), Failed>
    requires early { world.now.moment < CLOCK_END_MS }
    requires nat { is_nat (node_at world.now.topology client.now.nat) ≡ true }
    ensures { (d : Draws) (H : List Full) → StandsFor d world.now H
        → WritesFacts world.now.topology (Some index) world.now.moment (K.state out.old) (K.state out.new)
        (flat_map (passing_facts world.now.topology) (flat_map (walk_marked (walk_of (lab_in d world.now) H world.now.moment client.now)) marks.now)) result }
{
    let [mark, rest @ ..] = marks else {
        return Ok(());
    };
    write_marked(world, index, client, *mark, out)?;
    write_marks(world, index, client, rest, out)
}

/// Writes the lines on the NATs that let something of a record out, in the order in which they did.
pub fn write_let_out<K: Sink>(
    world: &World,
    index: u64,
    said: &Record,
    out: &mut K,
) -> Result<(), Failed>
    requires early { world.now.moment < CLOCK_END_MS }
    ensures { (d : Draws) (r : Full) (H : List Full) → StandsFor d world.now (r ∷ H) → said.now ≡ record_of r
        → WritesFacts world.now.topology (Some index) world.now.moment (K.state out.old) (K.state out.new)
        (flat_map (passing_facts world.now.topology) (reverse r.passed)) result }
{
    let Some(number) = said.node else {
        return Ok(());
    };
    let topology = world.topology();
    // for the proof: their rules
    let _rules = topology.clients();
    let _chain = world.nats().topology();
    let Some(client) = client_row(topology, number) else {
        return Ok(());
    };
    write_marks(world, index, &client, said.marks.as_slice(), out)
}
