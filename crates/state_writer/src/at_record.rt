//! The lines on what a record changed.
ghost use Rattle.std.specs.Prelude.{◌≡◌, ◌<◌, List, length};
ghost use Rattle.td_base.specs.declared.millis.TheConstants.{CLOCK_END_MS};
ghost use Rattle.topology.specs.Rows.{TopologyState};
ghost use Rattle.history.specs.Full.{Full};
ghost use Rattle.sink_lines.specs.Lines.{Writing};
ghost use Rattle.states.specs.StateLines.{concerned_lines};
ghost use Rattle.player.specs.Hearing.{IsNews};

use crate::at_nats::write_let_out;
use crate::at_node::write_at_node;
use events::Event;
use history::Record;
use td_outside::{Failed, Sink};
use world::World;

/// Writes the lines on what a record changed: of its node, and then of each NAT that let something of it out.
pub fn write_record<K: Sink>(
    world: &World,
    index: u64,
    event: &Event,
    said: &Record,
    out: &mut K,
) -> Result<(), Failed>
    requires early { world.now.moment < CLOCK_END_MS }
    ensures { (t : TopologyState) (H : List Full) (r : Full) → IsNews t world.now event.now said.now H r → index ≡ length H
        → Writing (K.state out.old) (K.state out.new) (concerned_lines t H r) result }
{
    write_at_node(world, index, event, said, out)?;
    write_let_out(world, index, said, out)
}
