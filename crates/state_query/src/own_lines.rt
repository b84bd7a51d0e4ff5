//! The line on a client or a relay of a world, its peers aside.
ghost use Rattle.std.specs.Prelude.{◌≡◌, ◌<◌, false, List, Some};
ghost use Rattle.td_base.specs.declared.millis.TheConstants.{CLOCK_END_MS};
ghost use Rattle.teredo_node.specs.Journal.{Entry, Journal, Words};
ghost use Rattle.qualify.specs.declared.settings.Settings.{Settings};
ghost use Rattle.qualify.specs.Qualification.{qualification};
ghost use Rattle.client_rules.specs.Journals.{client_due};
ghost use Rattle.client_core.specs.Client.{IsCallable};
ghost use Rattle.relay_rules.specs.Standing.{RelaySettings};
ghost use Rattle.relay_rules.specs.Journals.{relay_due};
ghost use Rattle.relay_core.specs.Relay.{IsCallableRelay};
ghost use Rattle.topology.specs.Topology.{node_at};
ghost use Rattle.history.specs.Full.{Full};
ghost use Rattle.legal.specs.Lab.{Draws};
ghost use Rattle.legal.specs.Past.{journal};
ghost use Rattle.lab_nodes.specs.PlayedNode.{IsClientOf, IsRelayOf};
ghost use Rattle.world.specs.World.{StandsFor};
ghost use Rattle.states.specs.Facts.{client_is, relay_is};
ghost use Rattle.states.specs.Kept.{at_node};
ghost use Rattle.states.specs.StateLines.{fact_line};
ghost use Rattle.state_query.specs.OwnFacts.{own_fact, TellsFact};

use client_core::Client;
use lab_nodes::PlayedNode;
use relay_core::Relay;
use state_lines::{Stamp, client_line, relay_line};
use td_base::LineBuf;
use teredo_node::Endpoint;
use topology::Topology;
use world::World;

/// Puts the line on a client in place of what the buffer held.
fn client_own_line(t: &Topology, stamp: Stamp, client: &Client, out: &mut LineBuf)
    requires { IsCallable client.now stamp.moment.0 }
    ensures { (s : Settings) (j : Journal) (w : Words) → IsClientOf s client.now j w
        → out.new ≡ fact_line t.now stamp.record stamp.moment.0 (at_node stamp.node
        (client_is (qualification s j).phase (qualification s j).address (client_due s j stamp.moment.0))) }
{
    client_line(
        t,
        stamp,
        client.phase(),
        client.address(),
        client.due(stamp.moment),
        out,
    );
}

/// Puts the line on a relay in place of what the buffer held.
fn relay_own_line(t: &Topology, stamp: Stamp, relay: &Relay, out: &mut LineBuf)
    requires { IsCallableRelay relay.now stamp.moment.0 }
    ensures { (s : RelaySettings) (j : List Entry) → IsRelayOf s relay.now j
        → out.new ≡ fact_line t.now stamp.record stamp.moment.0 (at_node stamp.node (relay_is (relay_due j stamp.moment.0))) }
{
    relay_line(t, stamp, relay.due(stamp.moment), out);
}

/// Puts the line on a client or a relay of a world in place of what the buffer held, behind the number of the last record;
/// and answers whether the node is such a one.
pub fn own_line(world: &World<'_>, index: u64, number: u16, out: &mut LineBuf) -> bool
    requires early { world.now.moment < CLOCK_END_MS }
    /// For every history that a world stands for, `own_line` gives the line on a client or a relay after it: of a client its phase
    /// and its address, and of both when they are due. Of any other node it gives none, and the buffer stays as it was.
    /// Needs: that the moment of the world is one of a clock.
    /// Leaves open: what is known of peers.
    ensures line { (d : Draws) (H : List Full) → StandsFor d world.now H → TellsFact world.now.topology (Some index) world.now.moment number
        (own_fact world.now.topology (journal number H) world.now.moment (node_at world.now.topology number)) result out.new }
    /// See `own_line`: `line`.
    ensures untouched { result ≡ false → out.new ≡ out.old }
{
    let Some(node) = world.node(number) else {
        return false;
    };
    let stamp = Stamp {
        record: Some(index),
        moment: world.moment(),
        node: number,
    };
    match node {
        PlayedNode::Client { client, .. } => {
            client_own_line(world.topology(), stamp, client, out);
            true
        }
        PlayedNode::Relay { relay, .. } => {
            relay_own_line(world.topology(), stamp, relay, out);
            true
        }
        PlayedNode::Server { .. } => false,
        PlayedNode::Nat { .. } => false,
        PlayedNode::Native { .. } => false,
    }
}
