//! The hosts of a world and the relays between them, and whether a client is settled along its way.
ghost use Rattle.std.specs.Prelude.{◌≡◌, ◌&&◌, List, Some};
ghost use Rattle.td_base.specs.Ep.{server_ep};
ghost use Rattle.topology.specs.Topology.{server_at};
ghost use Rattle.history.specs.Full.{Full};
ghost use Rattle.legal.specs.Lab.{Draws, Lab};
ghost use Rattle.legal.specs.Next.{address_at};
ghost use Rattle.legal.specs.Settings.{primary_of};
ghost use Rattle.theory_reaching.specs.Conditions.{is_on, is_led_to, is_settled_with, is_settled};
ghost use Rattle.world.specs.World.{StandsFor, lab_in};
ghost use Rattle.reach_query.specs.Hosts.{IsClientHere, goes_to};

use client_core::Client;
use relay_core::Relay;
use td_base::{Ep, Ip4, Ip6};
use teredo_addr::{UNSPECIFIED, embedded, has_cone};
use topology::{ClientNode, NativeNode, Node, RelayNode, Topology};
use world::{Route, World};

/// A client with its number, and what is kept of it.
#[derive(Clone, Copy)]
pub struct ClientHere<'a> {
    pub number: u16,
    pub row: ClientNode,
    pub client: &'a Client,
}

/// A client or a host of the IPv6 Internet, with its number and what is kept of it.
#[derive(Clone, Copy)]
pub enum HostHere<'a> {
    Client(ClientHere<'a>),
    Native { number: u16, row: NativeNode },
}

/// A relay, and what is kept of it.
#[derive(Clone, Copy)]
pub struct RelayHere<'a> {
    pub row: RelayNode,
    pub relay: &'a Relay,
}

/// Whether a route ends at the node of a number.
fn goes_to(route: Route, number: u16) -> bool
    ensures { result ≡ goes_to number route }
{
    match route {
        Route::Reaches { node } => node == number,
        Route::Closed { .. } => false,
        Route::Astray => false,
    }
}

/// The primary endpoint of the server of a number.
pub fn server_endpoint(topology: &Topology, number: u16) -> Ep
    ensures { result ≡ server_ep (primary_of (server_at topology.now number)) }
{
    match topology.node(usize::from(number)) {
        Some(Node::Server(row)) => Ep::of_server(row.primary),
        _ => Ep::of_server(Ip4([0; 4])),
    }
}

/// Whether what is sent from one endpoint to another is led to the node of a number: past NATs, where these let it in.
fn is_led_to(world: &World<'_>, src: Ep, dst: Ep, number: u16) -> bool
    ensures { (d : Draws) (H : List Full) → StandsFor d world.now H → result ≡ is_led_to (lab_in d world.now) H src dst number }
{
    goes_to(world.route(src, dst, number), number)
}

/// The same where it is asked: it is looked at there alone.
pub fn is_let_in(world: &World<'_>, asked: bool, src: Ep, dst: Ep, number: u16) -> bool
    ensures { (d : Draws) (H : List Full) → StandsFor d world.now H → result ≡ (asked && is_led_to (lab_in d world.now) H src dst number) }
{
    if !asked {
        return false;
    }
    is_led_to(world, src, dst, number)
}

/// Whether a client with this address is settled along its way: no NAT of the way is symmetric, what its server sends to
/// the endpoint in its address is led to it, and it has the cone bit only where each NAT of the way is cone.
fn is_settled_with(world: &World<'_>, number: u16, row: ClientNode, own: Ip6) -> bool
    ensures { (d : Draws) (H : List Full) → StandsFor d world.now H → result ≡ is_settled_with (lab_in d world.now) H number row (Some own) }
{
    let nats = world.nats();
    if nats.has_symmetric(row.nat) {
        return false;
    }
    let server = server_endpoint(world.topology(), row.server);
    if !is_led_to(world, server, embedded(own), number) {
        return false;
    }
    if !has_cone(own) {
        return true;
    }
    nats.is_all_cone(row.nat)
}

impl<'a> ClientHere<'a> {
    /// Whether it is settled along its way.
    pub fn is_settled(self, world: &World<'_>) -> bool
        ensures { (d : Draws) (H : List Full) → StandsFor d world.now H → IsClientHere (lab_in d world.now) H self.entry
            → result ≡ is_settled (lab_in d world.now) H self.entry.number self.entry.row }
    {
        match self.client.address() {
            Some(own) => is_settled_with(world, self.number, self.row, own),
            None => false,
        }
    }

    /// Whether it is qualified.
    pub fn is_on(self) -> bool
        ensures { (lab : Lab) (H : List Full) → IsClientHere lab H self.entry → result ≡ is_on lab H self.entry.number self.entry.row }
    {
        self.client.address().is_some()
    }

    /// Its address, or `::` where it has none.
    pub fn address(self) -> Ip6
        ensures { (lab : Lab) (H : List Full) → IsClientHere lab H self.entry → result ≡ address_at lab H self.entry.number }
    {
        self.client.address().unwrap_or(UNSPECIFIED)
    }
}
