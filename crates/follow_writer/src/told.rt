//! The peer of a record, and where its datagram came from, asked of the world after it.
ghost use Rattle.std.specs.Prelude.{◌≡◌, ◌∷◌, List};
ghost use Rattle.history.specs.Full.{Full};
ghost use Rattle.legal.specs.Lab.{Draws};
ghost use Rattle.legal.specs.Past.{journal};
ghost use Rattle.topology.specs.Topology.{node_at};
ghost use Rattle.world.specs.World.{StandsFor};
ghost use Rattle.follow_writer.specs.Told.{latest_peer_of, latest_at, source_delivered};

use history::{Act, Record};
use lab_nodes::PlayedNode;
use td_base::{Ep, Ip6};
use world::{WireEntry, World};

/// The latest peer of the node of a number, if it is a client or a relay and has one.
fn latest_of(world: &World, number: u16) -> Option<Ip6>
    ensures { (d : Draws) (H : List Full) → StandsFor d world.now H → result ≡ latest_peer_of (journal number H) (node_at world.now.topology number) }
{
    let Some(node) = world.node(number) else {
        return None;
    };
    match node {
        PlayedNode::Client { client, .. } => client.latest_peer(),
        PlayedNode::Relay { relay, .. } => relay.latest_peer(),
        PlayedNode::Server { .. } => None,
        PlayedNode::Nat { .. } => None,
        PlayedNode::Native { .. } => None,
    }
}

/// The latest peer of a record's node.
pub fn peer_of(world: &World, said: &Record) -> Option<Ip6>
    ensures { (d : Draws) (H : List Full) → StandsFor d world.now H → result ≡ latest_at world.now.topology H said.now.node }
{
    match said.node {
        None => None,
        Some(number) => latest_of(world, number),
    }
}

/// Where an entry of the wire came from that an act delivers.
pub fn source_of(world: &World, act: Act) -> Option<Ep>
    ensures { result ≡ source_delivered world.now.wire act }
{
    let Act::Deliver { number } = act else {
        return None;
    };
    match world.entry(number) {
        None => None,
        Some(WireEntry::Udp { src, .. }) => Some(src),
        Some(WireEntry::Six { .. }) => None,
    }
}
