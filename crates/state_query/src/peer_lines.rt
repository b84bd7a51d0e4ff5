//! The line on what a client or a relay of a world knows of a peer.
ghost use Rattle.std.specs.Prelude.{◌≡◌, ◌≤◌, ◌∷◌, false, List, Some};
ghost use Rattle.teredo_node.specs.Journal.{Entry, Journal, Words};
ghost use Rattle.qualify.specs.declared.settings.Settings.{Settings};
ghost use Rattle.client_rules.specs.Bearings.{mentions};
ghost use Rattle.client_core.specs.Client.{callable_from};
ghost use Rattle.relay_rules.specs.Standing.{RelaySettings};
ghost use Rattle.relay_rules.specs.Bearings.{relay_mentions};
ghost use Rattle.relay_core.specs.Relay.{relay_callable_from};
ghost use Rattle.topology.specs.Topology.{node_at};
ghost use Rattle.history.specs.Full.{Full};
ghost use Rattle.legal.specs.Lab.{Draws};
ghost use Rattle.legal.specs.Past.{journal};
ghost use Rattle.lab_nodes.specs.PlayedNode.{IsClientOf, IsRelayOf};
ghost use Rattle.world.specs.World.{StandsFor};
ghost use Rattle.states.specs.Facts.{Fact, client_knows, relay_knows};
ghost use Rattle.states.specs.PeerFates.{changes_peer, changes_client, IsOnLatestIf};
ghost use Rattle.state_query.specs.OwnFacts.{TellsFact};
ghost use Rattle.state_query.specs.PeerFacts.{listed_fact, known_fact, changed_facts, TellsFacts};

use client_core::Client;
use lab_nodes::PlayedNode;
use relay_core::Relay;
use state_lines::{Stamp, client_peer_line, relay_peer_line};
use td_base::{Ip6, LineBuf};
use teredo_node::Fate;
use topology::Topology;
use world::World;

/// Puts the line on what a client knows of an address in place of what the buffer held, and answers whether it lists it.
fn client_knows_line(
    t: &Topology,
    stamp: Stamp,
    client: &Client,
    who: Ip6,
    out: &mut LineBuf,
) -> bool
    requires { callable_from client.now ≤ stamp.moment.0 }
    ensures line { (s : Settings) (j : Journal) (w : Words) → IsClientOf s client.now j w → TellsFact t.now stamp.record stamp.moment.0 stamp.node
        (listed_fact client_knows (mentions j.entries) stamp.moment.0 who) result out.new }
    ensures untouched { result ≡ false → out.new ≡ out.old }
{
    let Some(peer) = client.peer(stamp.moment, who) else {
        return false;
    };
    client_peer_line(t, stamp, who, peer, peer.held_count(), out);
    true
}

/// Puts the line on what a relay knows of an address in place of what the buffer held, and answers whether it lists it.
fn relay_knows_line(t: &Topology, stamp: Stamp, relay: &Relay, who: Ip6, out: &mut LineBuf) -> bool
    requires { relay_callable_from relay.now ≤ stamp.moment.0 }
    ensures line { (s : RelaySettings) (j : List Entry) → IsRelayOf s relay.now j → TellsFact t.now stamp.record stamp.moment.0 stamp.node
        (listed_fact relay_knows (relay_mentions j) stamp.moment.0 who) result out.new }
    ensures untouched { result ≡ false → out.new ≡ out.old }
{
    let Some(peer) = relay.peer(stamp.moment, who) else {
        return false;
    };
    relay_peer_line(t, stamp, who, peer, out);
    true
}

/// Whether a record with this fate changes what a client says of a peer.
fn changes_peer(fate: Fate) -> bool
    ensures { result ≡ changes_peer fate }
{
    match fate {
        Fate::Sent => true,
        Fate::Queued => true,
        Fate::Indirect => true,
        Fate::Rule1 => true,
        Fate::Rule1Bubble => true,
        Fate::Rule2 => true,
        Fate::Rule3 => true,
        Fate::Rule3Bubble => true,
        Fate::HeldTest => true,
        Fate::SuspiciousTest => true,
        Fate::Held => true,
        Fate::Bubbles => true,
        Fate::Test => true,
        Fate::GiveUp => true,
        _ => false,
    }
}

/// Whether a record with this fate changes what a relay says of a client.
fn changes_client(fate: Fate) -> bool
    ensures { result ≡ changes_client fate }
{
    match fate {
        Fate::Sent => true,
        Fate::SentCone => true,
        Fate::Queued => true,
        Fate::FromClient => true,
        Fate::FromClientBubble => true,
        Fate::Unserved => true,
        Fate::Bubbles => true,
        Fate::GiveUp => true,
        _ => false,
    }
}

/// Puts the line on what a client knows of its latest peer in place of what the buffer held, where the fate is of a peer.
fn client_changed_line(
    t: &Topology,
    stamp: Stamp,
    client: &Client,
    fate: Fate,
    out: &mut LineBuf,
) -> bool
    requires { callable_from client.now ≤ stamp.moment.0 }
    ensures line { (s : Settings) (j : Journal) (w : Words) (facts : List Fact) → IsClientOf s client.now j w
        → IsOnLatestIf (changes_peer fate) client_knows (mentions j.entries) stamp.moment.0 facts
        → TellsFacts t.now stamp.record stamp.moment.0 stamp.node facts result out.new }
    ensures untouched { result ≡ false → out.new ≡ out.old }
{
    if !changes_peer(fate) {
        return false;
    }
    let Some(who) = client.latest_peer() else {
        return false;
    };
    client_knows_line(t, stamp, client, who, out)
}

/// Puts the line on what a relay knows of its latest peer in place of what the buffer held, where the fate is of a peer.
fn relay_changed_line(
    t: &Topology,
    stamp: Stamp,
    relay: &Relay,
    fate: Fate,
    out: &mut LineBuf,
) -> bool
    requires { relay_callable_from relay.now ≤ stamp.moment.0 }
    ensures line { (s : RelaySettings) (j : List Entry) (facts : List Fact) → IsRelayOf s relay.now j
        → IsOnLatestIf (changes_client fate) relay_knows (relay_mentions j) stamp.moment.0 facts
        → TellsFacts t.now stamp.record stamp.moment.0 stamp.node facts result out.new }
    ensures untouched { result ≡ false → out.new ≡ out.old }
{
    if !changes_client(fate) {
        return false;
    }
    let Some(who) = relay.latest_peer() else {
        return false;
    };
    relay_knows_line(t, stamp, relay, who, out)
}

/// Puts the line on what a client or a relay of a world knows of an address in place of what the buffer held, behind the number
/// of the last record, if there is one; and answers whether the node is such a one and lists the address.
pub fn peer_line(
    world: &World<'_>,
    index: Option<u64>,
    number: u16,
    who: Ip6,
    out: &mut LineBuf,
) -> bool
    /// For every history that a world stands for, `peer_line` gives the line on what a client or a relay knows after it of an
    /// address that it lists at the world's moment. Of an address that isn't listed, and of any other node, it gives none, and
    /// the buffer stays as it was.
    ensures line { (d : Draws) (H : List Full) → StandsFor d world.now H → TellsFact world.now.topology index world.now.moment number
        (known_fact (journal number H) world.now.moment who (node_at world.now.topology number)) result out.new }
    /// See `peer_line`: `line`.
    ensures untouched { result ≡ false → out.new ≡ out.old }
{
    let Some(node) = world.node(number) else {
        return false;
    };
    let stamp = Stamp {
        record: index,
        moment: world.moment(),
        node: number,
    };
    match node {
        PlayedNode::Client { client, .. } => {
            client_knows_line(world.topology(), stamp, client, who, out)
        }
        PlayedNode::Relay { relay, .. } => {
            relay_knows_line(world.topology(), stamp, relay, who, out)
        }
        PlayedNode::Server { .. } => false,
        PlayedNode::Nat { .. } => false,
        PlayedNode::Native { .. } => false,
    }
}

/// Puts the line on the peer that the last record changed for its node in place of what the buffer held, behind the number of that
/// record; and answers whether it changed one. The number of its node and its fate are the record's.
pub fn changed_peer_line(
    world: &World<'_>,
    index: u64,
    number: u16,
    fate: Fate,
    out: &mut LineBuf,
) -> bool
    /// For every history that a world stands for, `changed_peer_line` gives the line on the peer that its last record concerned at
    /// the record's node, if that is a client or a relay and the record concerned one. Else it gives none, and the buffer stays as
    /// it was.
    /// Needs: the node and the fate of the last record.
    ensures line { (d : Draws) (r : Full) (H : List Full) → StandsFor d world.now (r ∷ H) → r.node ≡ Some number → r.fate ≡ fate
        → TellsFacts world.now.topology (Some index) world.now.moment number
        (changed_facts r (journal number (r ∷ H)) (node_at world.now.topology number)) result out.new }
    /// See `changed_peer_line`: `line`.
    ensures untouched { result ≡ false → out.new ≡ out.old }
{
    let Some(node) = world.node(number) else {
        return false;
    };
    let stamp = Stamp {
        record: Some(index),
        moment: world.moment(),
        node: number,
    };
    match node {
        PlayedNode::Client { client, .. } => {
            client_changed_line(world.topology(), stamp, client, fate, out)
        }
        PlayedNode::Relay { relay, .. } => {
            relay_changed_line(world.topology(), stamp, relay, fate, out)
        }
        PlayedNode::Server { .. } => false,
        PlayedNode::Nat { .. } => false,
        PlayedNode::Native { .. } => false,
    }
}
