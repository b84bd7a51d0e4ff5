//! Whether a client speaks to an endpoint: whether what it sends there would leave from where its address says; and whether its bubbles for
//! another client would leave from elsewhere.
ghost use Rattle.std.specs.Prelude.{◌≡◌, List};
ghost use Rattle.topology.specs.Named.{is_nat};
ghost use Rattle.topology.specs.Rules.{IsTopology};
ghost use Rattle.topology.specs.Topology.{node_at};
ghost use Rattle.history.specs.Full.{Full};
ghost use Rattle.legal.specs.Lab.{Draws};
ghost use Rattle.theory_reaching.specs.Speaks.{is_from, is_elsewhere, speaks_to, strays_to, bubbles_stray};
ghost use Rattle.world.specs.World.{StandsFor, lab_in};
ghost use Rattle.reach_query.specs.Hosts.{IsClientHere};

use crate::hosts::ClientHere;
use nat_kinds::NatRefusal;
use td_base::{Ep, Ip6};
use td_chain::Sending;
use teredo_addr::embedded;
use topology::{Node, Topology};
use world::World;

/// Whether the node of a number is a NAT, in a topology that keeps its rules.
fn is_nat(topology: &Topology, number: u16) -> bool
    ensures is { result ≡ is_nat (node_at topology.now number) }
    ensures rules { IsTopology topology.now }
{
    let _rows = topology.nats();
    match topology.node(usize::from(number)) {
        Some(Node::Nat(_)) => true,
        _ => false,
    }
}

/// Whether a datagram leaves from this endpoint: it isn't refused.
fn is_from(at: Ep, leaves: Result<Ep, NatRefusal>) -> bool
    ensures { result ≡ is_from at leaves }
{
    match leaves {
        Ok(src) => src == at,
        Err(_) => false,
    }
}

/// Whether a datagram is let out, from another endpoint than this one.
fn is_elsewhere(at: Ep, leaves: Result<Ep, NatRefusal>) -> bool
    ensures { result ≡ is_elsewhere at leaves }
{
    let Ok(src) = leaves else {
        return false;
    };
    src != at
}

/// Whether a client with this address speaks to an endpoint: what it sends there is refused by no NAT of its way, and leaves the last one
/// from the endpoint in the address.
pub fn speaks_to(world: &World<'_>, a: ClientHere<'_>, own: Ip6, dst: Ep) -> bool
    ensures { (d : Draws) (H : List Full) → StandsFor d world.now H → IsClientHere (lab_in d world.now) H a.entry
        → result ≡ speaks_to (lab_in d world.now) H a.entry.row own dst }
{
    let topology = world.topology();
    if !is_nat(topology, a.row.nat) {
        return false;
    }
    let sending = Sending {
        now: world.moment(),
        nat: a.row.nat,
        inside: a.row.inside,
        dst,
    };
    is_from(embedded(own), world.nats().leaves(sending))
}

/// Whether what a client with this address sends to an endpoint is let out by each NAT of its way, from another endpoint than that in the
/// address.
fn strays_to(world: &World<'_>, a: ClientHere<'_>, own: Ip6, dst: Ep) -> bool
    ensures { (d : Draws) (H : List Full) → StandsFor d world.now H → IsClientHere (lab_in d world.now) H a.entry
        → result ≡ strays_to (lab_in d world.now) H a.entry.row own dst }
{
    let topology = world.topology();
    if !is_nat(topology, a.row.nat) {
        return false;
    }
    let sending = Sending {
        now: world.moment(),
        nat: a.row.nat,
        inside: a.row.inside,
        dst,
    };
    is_elsewhere(embedded(own), world.nats().leaves(sending))
}

/// Whether the bubbles of a client with this address stray, to a client whose endpoint and whose server's these are: those to the client are let
/// out from elsewhere, no NAT of the way is symmetric, and it doesn't speak to the server.
pub fn bubbles_stray(world: &World<'_>, a: ClientHere<'_>, own: Ip6, there: Ep, asked: Ep) -> bool
    ensures { (d : Draws) (H : List Full) → StandsFor d world.now H → IsClientHere (lab_in d world.now) H a.entry
        → result ≡ bubbles_stray (lab_in d world.now) H a.entry.row own there asked }
{
    if !strays_to(world, a, own, there) {
        return false;
    }
    let nats = world.nats();
    if nats.has_symmetric(a.row.nat) {
        return false;
    }
    !speaks_to(world, a, own, asked)
}
