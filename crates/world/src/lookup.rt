//! How the route of a datagram is looked up.
ghost use Rattle.std.specs.Prelude.{◌≡◌, ℕ, true, List, [], IfSome};
ghost use Rattle.topology.specs.Named.{is_nat};
ghost use Rattle.topology.specs.Topology.{node_at};
ghost use Rattle.topology.specs.Chains.{comes_to};
ghost use Rattle.td_chain.specs.Chains.{inward_of};
ghost use Rattle.history.specs.Full.{Full, udp};
ghost use Rattle.legal.specs.Lab.{Draws};
ghost use Rattle.legal.specs.Routes.{EntersBy};
ghost use Rattle.world.specs.Emission.{AreNatsWith};
ghost use Rattle.world.specs.WireEntry.{item_lent};
ghost use Rattle.world.specs.Route.{IsThere};
ghost use Rattle.world.specs.Lookup.{IsLookup, lab_by, IsRouteOf, IsRouteAt};

use crate::guesses::Guesses;
use crate::route::{Route, packet_route, route_inside};
use crate::wire_entry::WireEntry;
use td_base::{Ep, Millis};
use td_chain::{Chains, Way};
use topology::{ClientNode, Node, Topology};

/// What the route of a datagram is looked up by: the nodes, and the NATs at a moment.
#[derive(Clone, Copy)]
pub struct Lookup<'a> {
    pub topology: &'a Topology,
    pub nats: &'a Chains<'a>,
    pub now: Millis,
}

/// Whether a client is the one behind a NAT that has this inside endpoint.
fn is_inside(client: ClientNode, nat: u16, inside: Ep) -> bool
    ensures { result ≡ true → comes_to nat inside ≡ comes_to client.nat client.inside }
{
    if nat != client.nat {
        return false;
    }
    inside == client.inside
}

impl<'a> Lookup<'a> {
    /// The route of a datagram to a port of the NAT of a number: to nobody where the NAT is behind another one, since
    /// nothing comes to its address from the outside.
    fn route_through(self, at: u16, src: Ep, dst: Ep) -> Route
        requires lookup { IsLookup self }
        requires nat { is_nat (node_at self.topology.now at) ≡ true }
        ensures there { IsThere self.entry.topology.now result }
        ensures route { IsRouteAt self.entry at src dst result }
    {
        if self.nats.is_inner(at) {
            return Route::Astray; // it has no address outside
        }
        route_inside(self.topology, self.nats.inward(self.now, at, src, dst.port))
    }

    /// The route of a datagram to an endpoint of the node of a number.
    fn route_at(self, at: u16, src: Ep, dst: Ep) -> Route
        requires lookup { IsLookup self }
        ensures there { IsThere self.entry.topology.now result }
        ensures route { IsRouteAt self.entry at src dst result }
    {
        let Some(node) = self.topology.node(usize::from(at)) else {
            return Route::Astray;
        };
        match node {
            Node::Nat(_) => self.route_through(at, src, dst),
            _ => Route::Reaches { node: at },
        }
    }

    /// The route of a datagram, searched for.
    fn datagram_route(self, src: Ep, dst: Ep) -> Route
        requires lookup { IsLookup self }
        ensures there { IsThere self.entry.topology.now result }
        ensures route { (bytes : List ℕ) → IsRouteOf self.entry (udp src dst bytes) result }
    {
        match self.topology.at(dst) {
            Some(at) => self.route_at(at, src, dst),
            None => Route::Astray,
        }
    }

    /// The way in of a datagram that goes to the address of the NAT of a number, where this is behind no other one.
    fn way_in(self, at: u16, src: Ep, dst: Ep) -> Option<Way>
        requires lookup { IsLookup self }
        ensures { IfSome result (λ (way : Way). (d : Draws) (H : List Full) → AreNatsWith (lab_by d self.entry) H [] self.entry.nats.now
            → EntersBy (lab_by d self.entry) H self.entry.now.0 src dst (inward_of way)) }
    {
        let node = self.topology.node(usize::from(at))?;
        let Node::Nat(row) = node else {
            return None;
        };
        if dst.ip != row.external {
            return None;
        }
        if self.nats.is_inner(at) {
            return None;
        }
        Some(self.nats.inward(self.now, at, src, dst.port))
    }

    /// The route of a datagram that goes to the address of the NAT of a guessed client: to the client, or to the NAT that
    /// shuts it out. None where the guess doesn't tell.
    fn guessed_route(self, src: Ep, dst: Ep, number: u16) -> Option<Route>
        requires lookup { IsLookup self }
        ensures there { IfSome result (IsThere self.entry.topology.now) }
        ensures route { IfSome result (λ (told : Route). (bytes : List ℕ) → IsRouteOf self.entry (udp src dst bytes) told) }
    {
        // for the proof: its rules
        let _rules = self.topology.clients();
        let node = self.topology.node(usize::from(number))?;
        let Node::Client(client) = node else {
            return None;
        };
        let way = self.way_in(client.nat, src, dst)?;
        match way {
            Way::Closed { nat } => Some(Route::Closed { nat }),
            Way::In { nat, inside } => {
                if is_inside(client, nat, inside) {
                    return Some(Route::Reaches { node: number });
                }
                None
            }
        }
    }

    /// The route of a datagram, which is thought to go to the node of a number: that one is looked at first.
    pub fn likely_route(self, src: Ep, dst: Ep, number: u16) -> Route
        requires lookup { IsLookup self }
        ensures there { IsThere self.entry.topology.now result }
        ensures route { (bytes : List ℕ) → IsRouteOf self.entry (udp src dst bytes) result }
    {
        if let Some(route) = self.guessed_route(src, dst, number) {
            return route;
        }
        self.datagram_route(src, dst)
    }

    /// The route of a datagram. The client that got the last one to its address is looked at first.
    fn route_of_datagram(self, guesses: &mut Guesses, src: Ep, dst: Ep) -> Route
        requires lookup { IsLookup self }
        ensures there { IsThere self.entry.topology.now result }
        ensures route { (bytes : List ℕ) → IsRouteOf self.entry (udp src dst bytes) result }
    {
        let node = guesses.outside(dst.ip);
        if let Some(route) = self.guessed_route(src, dst, node) {
            return route;
        }
        let route = self.datagram_route(src, dst);
        guesses.note_outside(dst.ip, route);
        route
    }

    /// The route of an entry that is delivered now.
    pub fn route_of(self, guesses: &mut Guesses, entry: WireEntry<'_>) -> Route
        requires lookup { IsLookup self }
        ensures there { IsThere self.entry.topology.now result }
        ensures route { IsRouteOf self.entry (item_lent entry.entry) result }
    {
        match entry {
            WireEntry::Udp { src, dst, .. } => self.route_of_datagram(guesses, src, dst),
            WireEntry::Six { relay, bytes } => packet_route(self.topology, guesses, relay, bytes),
        }
    }
}
