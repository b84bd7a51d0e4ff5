//! Datagrams come in, through one NAT after the other.
ghost use Rattle.std.specs.Prelude.{◌≡◌, ◌≤◌, ℕ, map, IfSome};
ghost use Rattle.topology.specs.Chains.{NatPasts, goes_in, chain_in};
ghost use Rattle.td_chain.specs.Nestings.{behind_of};
ghost use Rattle.td_chain.specs.Chains.{NatsStand, AreNatsOf, NatIsThere, NatsReady, inward_of};

use crate::nesting::{Nesting, inner_at};
use crate::passing::let_in;
use crate::way::Way;
use nat_kinds::Nat;
use td_base::{Ep, Millis};
use topology::Topology;

/// NATs, and which of them are behind others.
#[derive(Clone, Copy)]
pub struct Nats<'a> {
    pub topology: &'a Topology,
    pub chain: &'a [Nesting],
    pub nats: &'a [Option<Nat>],
}

/// The way of a datagram that a NAT lets in to this endpoint: at most so many more are passed.
fn go_in(
    all: Nats<'_>,
    at_most: &[Nesting],
    now: Millis,
    src: Ep,
    number: u16,
    inside: Option<Ep>,
) -> Way
    requires rows { AreNatsOf all.topology.now all.nats.now }
    requires ready { NatsReady now.0 all.nats.now }
    ensures { (h : NatPasts) → NatsStand all.entry.topology.now all.entry.nats.now h
        → inward_of result ≡ goes_in all.entry.topology.now (map behind_of all.entry.chain.now) h now.0 src (map behind_of at_most.now) number inside }
{
    let Some(inside) = inside else {
        return Way::Closed { nat: number };
    };
    let [_, rest @ ..] = at_most else {
        return Way::In {
            nat: number,
            inside,
        };
    };
    let Some(inner) = inner_at(all.topology, all.chain, number, inside.ip) else {
        return Way::In {
            nat: number,
            inside,
        };
    };
    let further = let_in(all.nats, inner, now, src, inside.port);
    go_in(all, rest, now, src, inner, further)
}

/// The way of a datagram that comes to a port of a NAT.
pub fn come_in(all: Nats<'_>, now: Millis, number: u16, src: Ep, port: u16) -> Way
    requires rows { AreNatsOf all.topology.now all.nats.now }
    requires there { NatIsThere all.nats.now number }
    requires ready { NatsReady now.0 all.nats.now }
    ensures { (h : NatPasts) → NatsStand all.entry.topology.now all.entry.nats.now h
        → inward_of result ≡ chain_in all.entry.topology.now (map behind_of all.entry.chain.now) h now.0 number src port }
{
    let inside = let_in(all.nats, number, now, src, port);
    go_in(all, all.chain, now, src, number, inside)
}
