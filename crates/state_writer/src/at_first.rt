//! The lines on what nodes keep before any record.
ghost use Rattle.std.specs.Prelude.{◌≡◌, [], None, map, if◌then◌else◌};
ghost use Rattle.qualify.specs.declared.phase.Phase.TheVariants.{Cone, Restricted};
ghost use Rattle.legal.specs.Past.{new_journal};
ghost use Rattle.states.specs.Kept.{at_node, facts_of};
ghost use Rattle.states.specs.StateLines.{first_lines};
ghost use Rattle.sink_lines.specs.Lines.{Writing};
ghost use Rattle.state_writer.specs.Writes.{WritesFacts, first_facts};

use qualify::Phase;
use sink_lines::write_line;
use state_lines::{Stamp, client_line, relay_line, void_line};
use td_base::{LineBuf, Millis};
use td_outside::{Failed, Sink};
use topology::{ClientNode, Node, Topology};

/// The moment before any record.
const FIRST: Millis = Millis(0);

/// The phase that a client begins with.
fn first_phase(client: &ClientNode) -> Phase
    ensures { result ≡ (if client.now.cone_try then Cone else Restricted) }
{
    if client.cone_try {
        return Phase::Cone;
    }
    Phase::Restricted
}

/// Writes the lines on what a node keeps before any record.
fn write_first_of<K: Sink>(
    topology: &Topology,
    number: u16,
    node: Node,
    out: &mut K,
) -> Result<(), Failed>
    ensures { WritesFacts topology.now None 0 (K.state out.old) (K.state out.new)
        (map (at_node number) (facts_of topology.now [] (new_journal 0) 0 node)) result }
{
    let stamp = Stamp {
        record: None,
        moment: FIRST,
        node: number,
    };
    let mut line = LineBuf::new();
    match node {
        Node::Server(_) => Ok(()),
        Node::Native(_) => Ok(()),
        Node::Nat(_) => {
            void_line(topology, stamp, &mut line);
            write_line(out, line.as_slice())
        }
        Node::Client(row) => {
            let phase = first_phase(&row);
            client_line(topology, stamp, phase, None, Some(FIRST), &mut line);
            write_line(out, line.as_slice())
        }
        Node::Relay(_) => {
            relay_line(topology, stamp, None, &mut line);
            write_line(out, line.as_slice())
        }
    }
}

/// Writes the lines on what the nodes from this number on keep before any record, in the order of their numbers.
fn write_first_from<K: Sink>(topology: &Topology, number: u16, out: &mut K) -> Result<(), Failed>
    ensures { WritesFacts topology.now None 0 (K.state out.old) (K.state out.new) (first_facts topology.now number) result }
{
    let Some(node) = topology.node(usize::from(number)) else {
        return Ok(());
    };
    write_first_of(topology, number, node, out)?;
    write_first_from(topology, number + 1, out)
}

/// Writes the lines on what all nodes keep before any record.
pub fn write_first<K: Sink>(topology: &Topology, out: &mut K) -> Result<(), Failed>
    ensures { Writing (K.state out.old) (K.state out.new) (first_lines topology.now) result }
{
    write_first_from(topology, 0, out)
}
