//! Who reaches whom: the word on two nodes.
ghost use Rattle.std.specs.Prelude.{◌≡◌, ◌≤◌, false, List, Some, option_map, IfSome, IfNone};
ghost use Rattle.topology.specs.declared.node.Node.TheVariants as node;
ghost use Rattle.topology.specs.declared.relay_node.RelayNode.{RelayNode};
ghost use Rattle.topology.specs.Named.{has_host};
ghost use Rattle.topology.specs.Topology.{node_at, relay_at};
ghost use Rattle.history.specs.Full.{Full};
ghost use Rattle.legal.specs.Lab.{Draws};
ghost use Rattle.client_core.specs.Client.{callable_from};
ghost use Rattle.relay_core.specs.Relay.{relay_callable_from};
ghost use Rattle.theory_reaching.specs.ThroughRelay.{relayed};
ghost use Rattle.theory_reaching.specs.ToNative.{to_native_row};
ghost use Rattle.theory_reaching.specs.FromNative.{from_native_row};
ghost use Rattle.theory_reaching.specs.Reach.{reach_between, reach_of};
ghost use Rattle.world.specs.World.{StandsFor, lab_in};
ghost use Rattle.reach_query.specs.Hosts.{IsClientHere, host_number, node_of, IsReadyHost, IsHostHere, IsRelayHere};

use crate::hosts::{ClientHere, HostHere, RelayHere};
use crate::through_relay::{relayed_word_from, relayed_word_to};
use crate::two_clients::word_between;
use lab_nodes::PlayedNode;
use theory_reaching::Reach;
use topology::NativeNode;
use world::World;

/// The relay of a number, if there is one.
fn relay_here<'a>(world: &'a World<'_>, number: u16) -> Option<RelayHere<'a>>
    ensures row { option_map (λ by. by.row) result ≡ relay_at world.now.topology number }
    ensures clock { IfSome result (λ by. relay_callable_from by.relay.now ≤ world.now.moment) }
    ensures here { (d : Draws) (H : List Full) → StandsFor d world.now H → IfSome result (λ by. IsRelayHere (lab_in d world.now) H number by) }
{
    let node = world.node(number)?;
    match node {
        PlayedNode::Relay { row, relay } => Some(RelayHere { row: *row, relay }),
        PlayedNode::Server { .. } => None,
        PlayedNode::Nat { .. } => None,
        PlayedNode::Client { .. } => None,
        PlayedNode::Native { .. } => None,
    }
}

/// The word on packets from a client to a native host, if this has its relay.
fn word_to_native(world: &World<'_>, a: ClientHere<'_>, host: NativeNode) -> Option<Reach>
    requires client { callable_from a.client.now ≤ world.now.moment }
    ensures { (d : Draws) (H : List Full) → StandsFor d world.now H → IsClientHere (lab_in d world.now) H a.entry
        → result ≡ option_map (λ (by : RelayNode). to_native_row (relayed (lab_in d world.now) H a.entry.number a.entry.row host by))
        (relay_at world.now.topology host.relay) }
{
    let by = relay_here(world, host.relay)?;
    Some(relayed_word_to(world, a, host, by))
}

/// The word on packets from a native host to a client, if the host has its relay.
fn word_from_native(world: &World<'_>, host: NativeNode, b: ClientHere<'_>) -> Option<Reach>
    requires client { callable_from b.client.now ≤ world.now.moment }
    ensures { (d : Draws) (H : List Full) → StandsFor d world.now H → IsClientHere (lab_in d world.now) H b.entry
        → result ≡ option_map (λ (by : RelayNode). from_native_row (relayed (lab_in d world.now) H b.entry.number b.entry.row host by))
        (relay_at world.now.topology host.relay) }
{
    let by = relay_here(world, host.relay)?;
    Some(relayed_word_from(world, host, b, by))
}

/// The word on packets from a client to another one: none on itself.
fn word_to_client(world: &World<'_>, a: ClientHere<'_>, b: ClientHere<'_>) -> Option<Reach>
    requires sender { callable_from a.client.now ≤ world.now.moment }
    requires receiver { callable_from b.client.now ≤ world.now.moment }
    ensures { (d : Draws) (H : List Full) → StandsFor d world.now H → IsClientHere (lab_in d world.now) H a.entry
        → IsClientHere (lab_in d world.now) H b.entry
        → result ≡ reach_between (lab_in d world.now) H a.entry.number b.entry.number (Some (node.Client a.entry.row)) (Some (node.Client b.entry.row)) }
{
    if a.number == b.number {
        return None;
    }
    Some(word_between(world, a, b))
}

/// The word on packets from a client to a host.
fn word_of_client(world: &World<'_>, a: ClientHere<'_>, to: HostHere<'_>) -> Option<Reach>
    requires client { callable_from a.client.now ≤ world.now.moment }
    requires to { IsReadyHost world.now.moment to }
    ensures { (d : Draws) (H : List Full) → StandsFor d world.now H → IsClientHere (lab_in d world.now) H a.entry
        → IsHostHere (lab_in d world.now) H to.entry
        → result ≡ reach_between (lab_in d world.now) H a.entry.number (host_number to.entry) (Some (node.Client a.entry.row)) (Some (node_of to.entry)) }
{
    match to {
        HostHere::Client(b) => word_to_client(world, a, b),
        HostHere::Native { row, .. } => word_to_native(world, a, row),
    }
}

/// The word on packets from a host to another one.
fn word_of_host(world: &World<'_>, from: HostHere<'_>, to: HostHere<'_>) -> Option<Reach>
    requires from { IsReadyHost world.now.moment from }
    requires to { IsReadyHost world.now.moment to }
    ensures { (d : Draws) (H : List Full) → StandsFor d world.now H → IsHostHere (lab_in d world.now) H from.entry
        → IsHostHere (lab_in d world.now) H to.entry
        → result ≡ reach_between (lab_in d world.now) H (host_number from.entry) (host_number to.entry)
        (Some (node_of from.entry)) (Some (node_of to.entry)) }
{
    match from {
        HostHere::Client(a) => word_of_client(world, a, to),
        HostHere::Native { row, .. } => match to {
            HostHere::Client(b) => word_from_native(world, row, b),
            HostHere::Native { .. } => None,
        },
    }
}

/// The host of a number, if there is one.
fn host_here<'a>(world: &'a World<'_>, number: u16) -> Option<HostHere<'a>>
    ensures none { IfNone result (has_host (node_at world.now.topology number) ≡ false) }
    ensures number { IfSome result (λ host. host_number host ≡ number) }
    ensures node { IfSome result (λ host. node_at world.now.topology number ≡ Some (node_of host)) }
    ensures ready { IfSome result (IsReadyHost world.now.moment) }
    ensures here { (d : Draws) (H : List Full) → StandsFor d world.now H → IfSome result (IsHostHere (lab_in d world.now) H) }
{
    let node = world.node(number)?;
    match node {
        PlayedNode::Client { row, client } => Some(HostHere::Client(ClientHere {
            number,
            row: *row,
            client,
        })),
        PlayedNode::Native { row } => Some(HostHere::Native { number, row: *row }),
        PlayedNode::Server { .. } => None,
        PlayedNode::Nat { .. } => None,
        PlayedNode::Relay { .. } => None,
    }
}

/// What becomes of the next packet from one host to another: none where they are no two hosts of which one is a client.
pub fn word_on(world: &World<'_>, from: u16, to: u16) -> Option<Reach>
    /// For every history that a world stands for, `word_on` gives the word on two nodes, or none where they are no two
    /// hosts of which one is a client. This holds of a stopped world too, as long as it stands for its history.
    /// Leaves open: what the word promises, which `theory_reaching` says.
    ensures word { (d : Draws) (H : List Full) → StandsFor d world.now H → result ≡ reach_of (lab_in d world.now) H from to }
{
    let sender = host_here(world, from)?;
    let receiver = host_here(world, to)?;
    word_of_host(world, sender, receiver)
}

/// Whether a number is that of a host: of a client, or of a host of the IPv6 Internet.
pub fn is_host(world: &World<'_>, number: u16) -> bool
    /// See `word_on`: `word`.
    ensures { result ≡ has_host (node_at world.now.topology number) }
{
    match host_here(world, number) {
        None => false,
        Some(HostHere::Client(_)) => true,
        Some(HostHere::Native { .. }) => true,
    }
}
