//! The lines on what a record changed of its node.
ghost use Rattle.std.specs.Prelude.{◌≡◌, ◌<◌, ◌||◌, ◌∷◌, ◌++◌, List, Some, map, option_to_list};
ghost use Rattle.td_base.specs.declared.millis.TheConstants.{CLOCK_END_MS};
ghost use Rattle.topology.specs.Topology.{node_at, client_at};
ghost use Rattle.teredo_node.specs.Journal.{is_changed};
ghost use Rattle.history.specs.Full.{Full};
ghost use Rattle.history.specs.Records.{record_of};
ghost use Rattle.legal.specs.Lab.{Draws};
ghost use Rattle.legal.specs.Past.{is_restart, journal};
ghost use Rattle.world.specs.World.{StandsFor};
ghost use Rattle.states.specs.Kept.{at_node};
ghost use Rattle.states.specs.Concerned.{void_if, voids, forgotten_facts, concerned_at};
ghost use Rattle.state_query.specs.OwnFacts.{own_fact};
ghost use Rattle.state_query.specs.PeerFacts.{changed_facts};
ghost use Rattle.state_writer.specs.Writes.{WritesFacts};
ghost use Rattle.state_writer.specs.KnownFacts.{known_facts};

use events::{Event, Verb};
use history::{Act, Record};
use sink_lines::write_line;
use state_lines::{Stamp, forgets_line, void_line};
use state_query::{changed_peer_line, own_line};
use td_base::LineBuf;
use td_outside::{Failed, Sink};
use teredo_node::Fate;
use topology::{ClientNode, Node, Topology};
use world::World;

/// Whether a node starts anew.
fn is_restart(act: Act) -> bool
    ensures { result ≡ is_restart act }
{
    let Act::Plain { verb } = act else {
        return false;
    };
    verb == Verb::Restart
}

/// The row of a client.
pub(crate) fn client_row(topology: &Topology, number: u16) -> Option<ClientNode>
    ensures { result ≡ client_at topology.now number }
{
    let node = topology.node(usize::from(number))?;
    match node {
        Node::Client(row) => Some(row),
        _ => None,
    }
}

/// Writes the line by which all that was said of a node is void, where it is.
fn write_void<K: Sink>(
    topology: &Topology,
    stamp: Stamp,
    is_void: bool,
    out: &mut K,
) -> Result<(), Failed>
    ensures { WritesFacts topology.now stamp.record stamp.moment.0 (K.state out.old) (K.state out.new)
        (map (at_node stamp.node) (void_if is_void)) result }
{
    if !is_void {
        return Ok(());
    }
    let mut line = LineBuf::new();
    void_line(topology, stamp, &mut line);
    write_line(out, line.as_slice())
}

/// Writes the line by which all that was said of a client's inside endpoint is void, where a NAT forgets that client.
fn write_forgotten<K: Sink>(
    topology: &Topology,
    stamp: Stamp,
    event: &Event,
    out: &mut K,
) -> Result<(), Failed>
    ensures { WritesFacts topology.now stamp.record stamp.moment.0 (K.state out.old) (K.state out.new)
        (map (at_node stamp.node) (forgotten_facts topology.now event.now)) result }
{
    let Event::Forget { client, .. } = event else {
        return Ok(());
    };
    let Some(row) = client_row(topology, *client) else {
        return Ok(());
    };
    let mut line = LineBuf::new();
    forgets_line(topology, stamp, row.inside, &mut line);
    write_line(out, line.as_slice())
}

/// Writes what a record changed of its node, a NAT.
fn write_of_nat<K: Sink>(
    topology: &Topology,
    stamp: Stamp,
    event: &Event,
    act: Act,
    out: &mut K,
) -> Result<(), Failed>
    ensures { WritesFacts topology.now stamp.record stamp.moment.0 (K.state out.old) (K.state out.new)
        (map (at_node stamp.node) (void_if (is_restart act) ++ forgotten_facts topology.now event.now)) result }
{
    write_void(topology, stamp, is_restart(act), out)?;
    write_forgotten(topology, stamp, event, out)
}

/// Whether by this fate a client's address changed.
fn is_changed(fate: Fate) -> bool
    ensures { result ≡ is_changed fate }
{
    match fate {
        Fate::Changed => true,
        _ => false,
    }
}

/// Whether all that was said of a record's node is void.
fn is_void(said: &Record) -> bool
    ensures { result ≡ (is_restart said.now.act || is_changed said.now.fate) }
{
    is_restart(said.act) || is_changed(said.fate)
}

/// Writes the line on a client or a relay, its peers aside.
fn write_own<K: Sink>(world: &World, index: u64, number: u16, out: &mut K) -> Result<(), Failed>
    requires early { world.now.moment < CLOCK_END_MS }
    ensures { (d : Draws) (H : List Full) → StandsFor d world.now H
        → WritesFacts world.now.topology (Some index) world.now.moment (K.state out.old) (K.state out.new)
        (map (at_node number) (option_to_list (own_fact world.now.topology (journal number H) world.now.moment (node_at world.now.topology number)))) result }
{
    let mut line = LineBuf::new();
    if !own_line(world, index, number, &mut line) {
        return Ok(());
    }
    write_line(out, line.as_slice())
}

/// Writes the line on the peer that a record concerned at its node, if it concerned one.
fn write_peer<K: Sink>(
    world: &World,
    index: u64,
    number: u16,
    fate: Fate,
    out: &mut K,
) -> Result<(), Failed>
    ensures { (d : Draws) (r : Full) (H : List Full) → StandsFor d world.now (r ∷ H) → r.node ≡ Some number → r.fate ≡ fate
        → WritesFacts world.now.topology (Some index) world.now.moment (K.state out.old) (K.state out.new)
        (map (at_node number) (changed_facts r (journal number (r ∷ H)) (node_at world.now.topology number))) result }
{
    let mut line = LineBuf::new();
    if !changed_peer_line(world, index, number, fate, &mut line) {
        return Ok(());
    }
    write_line(out, line.as_slice())
}

/// Writes the lines on a client or a relay, and on the peer that a record concerned there.
fn write_known<K: Sink>(
    world: &World,
    index: u64,
    number: u16,
    fate: Fate,
    out: &mut K,
) -> Result<(), Failed>
    requires early { world.now.moment < CLOCK_END_MS }
    ensures { (d : Draws) (r : Full) (H : List Full) → StandsFor d world.now (r ∷ H) → r.node ≡ Some number → r.fate ≡ fate
        → WritesFacts world.now.topology (Some index) world.now.moment (K.state out.old) (K.state out.new)
        (map (at_node number) (known_facts world.now.topology r H number)) result }
{
    write_own(world, index, number, out)?;
    write_peer(world, index, number, fate, out)
}

/// Writes what a record changed of its node, a client or a relay.
fn write_of_host<K: Sink>(
    world: &World,
    index: u64,
    number: u16,
    said: &Record,
    out: &mut K,
) -> Result<(), Failed>
    requires early { world.now.moment < CLOCK_END_MS }
    ensures { (d : Draws) (r : Full) (H : List Full) → StandsFor d world.now (r ∷ H) → said.now ≡ record_of r → r.node ≡ Some number
        → WritesFacts world.now.topology (Some index) world.now.moment (K.state out.old) (K.state out.new)
        (map (at_node number) (void_if (voids r) ++ known_facts world.now.topology r H number)) result }
{
    let stamp = Stamp {
        record: Some(index),
        moment: world.moment(),
        node: number,
    };
    write_void(world.topology(), stamp, is_void(said), out)?;
    write_known(world, index, number, said.fate, out)
}

/// Writes what a record changed of its node.
pub fn write_at_node<K: Sink>(
    world: &World,
    index: u64,
    event: &Event,
    said: &Record,
    out: &mut K,
) -> Result<(), Failed>
    requires early { world.now.moment < CLOCK_END_MS }
    ensures { (d : Draws) (r : Full) (H : List Full) → StandsFor d world.now (r ∷ H) → said.now ≡ record_of r → r.asked ≡ event.now
        → WritesFacts world.now.topology (Some index) world.now.moment (K.state out.old) (K.state out.new)
        (concerned_at world.now.topology H r r.node) result }
{
    let Some(number) = said.node else {
        return Ok(());
    };
    let topology = world.topology();
    let Some(node) = topology.node(usize::from(number)) else {
        return Ok(());
    };
    let stamp = Stamp {
        record: Some(index),
        moment: world.moment(),
        node: number,
    };
    match node {
        Node::Server(_) => Ok(()),
        Node::Nat(_) => write_of_nat(topology, stamp, event, said.act, out),
        Node::Client(_) => write_of_host(world, index, number, said, out),
        Node::Relay(_) => write_of_host(world, index, number, said, out),
        Node::Native(_) => Ok(()),
    }
}
