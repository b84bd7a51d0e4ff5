//! The walk along a way, by the ports that NATs have live.
ghost use Rattle.std.specs.Prelude.{◌≡◌, ◌≤◌, map, option_map, slice_get, true, IfSome};
ghost use Rattle.topology.specs.Named.{is_nat};
ghost use Rattle.topology.specs.Topology.{node_at};
ghost use Rattle.topology.specs.Chains.{NatPasts, nat_set_up, nats_from, way_out};
ghost use Rattle.td_chain.specs.Nestings.{behind_of};
ghost use Rattle.td_chain.specs.ChainRules.{is_chain};
ghost use Rattle.td_chain.specs.Chains.{NatsStand, AreNatsOf, NatIsThere, NatsReady};
ghost use Rattle.td_chain.specs.Walk.{passed_by, passing_of, walk};

use crate::entering::Nats;
use crate::leave::outside;
use crate::let_out::LetOut;
use crate::nesting::Nesting;
use crate::passing::{Leaving, port_at};
use crate::sending::Sending;
use nat_kinds::Outward;
use td_base::{Ep, Ip4};
use topology::{Node, Topology};

/// The external address of the NAT of a number.
fn external_of(topology: &Topology, number: u16) -> Ip4
    ensures { result ≡ (nat_set_up topology.now number).external }
{
    match topology.node(usize::from(number)) {
        Some(Node::Nat(row)) => row.external,
        _ => Ip4([0; 4]),
    }
}

/// The port by which the NAT of a number lets a datagram out: none of one to its own address.
fn passed_by(all: Nats<'_>, number: u16, leaving: Leaving, from: Ep) -> Option<u16>
    requires there { NatIsThere all.nats.now number }
    requires ready { NatsReady leaving.now.0 all.nats.now }
    ensures { (h : NatPasts) → NatsStand all.entry.topology.now all.entry.nats.now h
        → result ≡ passed_by all.entry.topology.now h leaving.now.0 number from leaving.dst }
{
    if leaving.dst.ip == external_of(all.topology, number) {
        return None;
    }
    port_at(all.nats, number, leaving.now, from, leaving.dst)
}

/// What the NAT in a place of the walk let out, from one NAT outwards, at most so many.
fn walk_on(
    all: Nats<'_>,
    at_most: &[Nesting],
    next: Option<u16>,
    leaving: Leaving,
    from: Ep,
    place: usize,
) -> Option<LetOut>
    requires rows { AreNatsOf all.topology.now all.nats.now }
    requires rules { is_chain all.topology.now (map behind_of all.chain.now) ≡ true }
    requires ready { NatsReady leaving.now.0 all.nats.now }
    requires there { IfSome next (λ k. is_nat (node_at all.topology.now k) ≡ true) }
    ensures { (h : NatPasts) → NatsStand all.entry.topology.now all.entry.nats.now h
        → option_map passing_of result ≡ slice_get (walk all.entry.topology.now h leaving.now.0 leaving.dst (nats_from (map behind_of all.entry.chain.now) (map behind_of at_most.now) next) from) place }
{
    let Some(number) = next else {
        return None;
    };
    let [_, rest @ ..] = at_most else {
        return None;
    };
    let Some(port) = passed_by(all, number, leaving, from) else {
        return None;
    };
    if place == 0 {
        return Some(LetOut {
            nat: number,
            datagram: Outward {
                moment: leaving.now,
                inside: from,
                dst: leaving.dst,
                port,
            },
        });
    }
    let external = Ep {
        ip: external_of(all.topology, number),
        port,
    };
    let next = outside(all, number);
    walk_on(all, rest, next, leaving, external, place - 1)
}

/// What the NAT in a place of the walk let out.
pub fn walk_out(all: Nats<'_>, sending: Sending, place: usize) -> Option<LetOut>
    requires rows { AreNatsOf all.topology.now all.nats.now }
    requires rules { is_chain all.topology.now (map behind_of all.chain.now) ≡ true }
    requires ready { NatsReady sending.now.0 all.nats.now }
    requires there { is_nat (node_at all.topology.now sending.nat) ≡ true }
    ensures { (h : NatPasts) → NatsStand all.entry.topology.now all.entry.nats.now h
        → option_map passing_of result ≡ slice_get (walk all.entry.topology.now h sending.now.0 sending.dst (way_out (map behind_of all.entry.chain.now) sending.nat) sending.inside) place }
{
    let leaving = Leaving {
        now: sending.now,
        dst: sending.dst,
    };
    let Some(port) = passed_by(all, sending.nat, leaving, sending.inside) else {
        return None;
    };
    if place == 0 {
        return Some(LetOut {
            nat: sending.nat,
            datagram: Outward {
                moment: sending.now,
                inside: sending.inside,
                dst: sending.dst,
                port,
            },
        });
    }
    let external = Ep {
        ip: external_of(all.topology, sending.nat),
        port,
    };
    let next = outside(all, sending.nat);
    walk_on(all, all.chain, next, leaving, external, place - 1)
}
