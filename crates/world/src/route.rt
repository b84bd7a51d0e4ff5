//! Where an entry of the wire goes.
ghost use Rattle.std.specs.Prelude.{◌≡◌, ℕ, true, List, None};
ghost use Rattle.ipv6_packet.specs.Reads.{is_packet, fields_in};
ghost use Rattle.topology.specs.Chains.{Behind};
ghost use Rattle.td_chain.specs.Chains.{inward_of};
ghost use Rattle.history.specs.Full.{Full, six};
ghost use Rattle.legal.specs.Lab.{Draws, lab_on};
ghost use Rattle.legal.specs.Emit.{reach, route_in, route};
ghost use Rattle.world.specs.Route.{by_route, reached, IsThere};

use crate::guesses::Guesses;
use td_base::Ip6;
use td_chain::Way;
use topology::{Node, Topology};

/// Where an entry goes: to a node, to a NAT that lets it in to nobody, or to nobody at all. Nodes stand by their
/// numbers.
#[derive(Clone, Copy, Debug)]
pub enum Route {
    Reaches { node: u16 },
    Closed { nat: u16 },
    Astray,
}

/// The route to the node of a number.
fn route_to(topology: &Topology, number: Option<u16>) -> Route
    ensures there { IsThere topology.now result }
    ensures route { by_route topology.now result ≡ reach topology.now number }
{
    let Some(node) = number else {
        return Route::Astray;
    };
    match topology.node(usize::from(node)) {
        Some(_) => Route::Reaches { node },
        None => Route::Astray,
    }
}

/// The route by the way on which a datagram comes in.
pub fn route_inside(topology: &Topology, way: Way) -> Route
    ensures there { IsThere topology.now result }
    ensures route { by_route topology.now result ≡ route_in topology.now (inward_of way) }
{
    match way {
        Way::Closed { nat } => Route::Closed { nat },
        Way::In { nat, inside } => route_to(topology, topology.client_behind(nat, inside)),
    }
}

/// Whether the node of a number is a native host with this address.
fn is_native(topology: &Topology, number: u16, ip: Ip6) -> bool
    ensures there { result ≡ true → IsThere topology.now (reached number) }
    ensures route { result ≡ true → (d : Draws) (chain : List Behind) (H : List Full) (m : ℕ) (bytes : List ℕ)
        → is_packet bytes ≡ true → (fields_in bytes).dst ≡ ip
        → by_route topology.now (reached number) ≡ route (lab_on d topology.now chain) H m (six None bytes) }
{
    // for the proof: its rules
    let _rules = topology.clients();
    let Some(node) = topology.node(usize::from(number)) else {
        return false;
    };
    let Node::Native(row) = node else {
        return false;
    };
    ip == row.six
}

/// The route of a packet for a native host with this address. The one that got the last packet to it is looked at first.
fn route_to_native(topology: &Topology, guesses: &mut Guesses, ip: Ip6) -> Route
    ensures there { IsThere topology.now result }
    ensures route { (d : Draws) (chain : List Behind) (H : List Full) (m : ℕ) (bytes : List ℕ)
        → is_packet bytes ≡ true → (fields_in bytes).dst ≡ ip
        → by_route topology.now result ≡ route (lab_on d topology.now chain) H m (six None bytes) }
{
    let node = guesses.six(ip);
    if is_native(topology, node, ip) {
        return Route::Reaches { node };
    }
    let route = route_to(topology, topology.native_with(ip));
    guesses.note_six(ip, route);
    route
}

/// The route of an IPv6 packet: to its relay, or to the native host with its destination.
pub fn packet_route(
    topology: &Topology,
    guesses: &mut Guesses,
    relay: Option<u16>,
    bytes: &[u8],
) -> Route
    ensures there { IsThere topology.now result }
    ensures route { (d : Draws) (chain : List Behind) (H : List Full) (m : ℕ)
        → by_route topology.now result ≡ route (lab_on d topology.now chain) H m (six relay bytes.now) }
{
    if let Some(relay) = relay {
        return route_to(topology, Some(relay));
    }
    match ipv6_packet::read(bytes) {
        Ok(packet) => route_to_native(topology, guesses, packet.dst),
        Err(_) => Route::Astray,
    }
}
