//! Datagrams come in, had one been sent before.
ghost use Rattle.std.specs.Prelude.{◌≡◌, ◌≤◌, ◌++◌, ℕ, map, true, IfSome};
ghost use Rattle.nat_kinds.specs.Entering.{lets_in};
ghost use Rattle.topology.specs.Named.{is_nat};
ghost use Rattle.topology.specs.Topology.{node_at};
ghost use Rattle.topology.specs.Rows.{TopologyState};
ghost use Rattle.topology.specs.Chains.{NatPasts, nat_set_up, let_in, goes_in, chain_in};
ghost use Rattle.td_chain.specs.Nestings.{behind_of};
ghost use Rattle.td_chain.specs.ChainRules.{is_chain};
ghost use Rattle.td_chain.specs.Chains.{NatsStand, AreNatsOf, NatIsThere, NatsReady, inward_of, once_sent};
ghost use Rattle.td_chain.specs.Ascent.{out_of, LeavesFromPort};

use crate::entering::Nats;
use crate::leave::let_out_at;
use crate::nesting::{Nesting, inner_at};
use crate::sending::Sending;
use crate::way::Way;
use nat_kinds::{Nat, Outward};
use td_base::{Ep, Millis};

/// The inside endpoint that the NAT of a number would let a datagram in to, had it let this one out.
fn let_in_with(
    nats: &[Option<Nat>],
    number: u16,
    now: Millis,
    src: Ep,
    port: u16,
    sent: Option<Outward>,
) -> Option<Ep>
    requires there { NatIsThere nats.now number }
    requires ready { NatsReady now.0 nats.now }
    requires moment { IfSome sent (λ e. e.moment ≡ now) }
    ensures { (t : TopologyState) (h : NatPasts) → NatsStand t nats.now h → IfSome sent (LeavesFromPort t h now.0 number)
        → result ≡ lets_in (nat_set_up t number) (out_of sent ++ h number) now.0 src port }
{
    let Some(nat) = &nats[usize::from(number)] else {
        unreachable!()
    };
    let Some(sent) = sent else {
        return nat.inward(now, src, port);
    };
    nat.lets_in_once(now, src, port, sent)
}

/// The same, of what it would let out of a datagram that was sent.
fn let_in_once(all: Nats<'_>, sending: Sending, number: u16, src: Ep, port: u16) -> Option<Ep>
    requires rows { AreNatsOf all.topology.now all.nats.now }
    requires rules { is_chain all.topology.now (map behind_of all.chain.now) ≡ true }
    requires ready { NatsReady sending.now.0 all.nats.now }
    requires sender { is_nat (node_at all.topology.now sending.nat) ≡ true }
    requires there { NatIsThere all.nats.now number }
    ensures { (h : NatPasts) → NatsStand all.entry.topology.now all.entry.nats.now h
        → result ≡ let_in all.entry.topology.now
        (once_sent all.entry.topology.now (map behind_of all.entry.chain.now) h sending.now.0 sending.nat sending.inside sending.dst) sending.now.0 number src port }
{
    let sent = let_out_at(all, sending, number);
    let_in_with(all.nats, number, sending.now, src, port, sent)
}

/// The way of a datagram that a NAT would let in to this endpoint: at most so many more are passed.
fn go_in_once(
    all: Nats<'_>,
    at_most: &[Nesting],
    sending: Sending,
    src: Ep,
    number: u16,
    inside: Option<Ep>,
) -> Way
    requires rows { AreNatsOf all.topology.now all.nats.now }
    requires rules { is_chain all.topology.now (map behind_of all.chain.now) ≡ true }
    requires ready { NatsReady sending.now.0 all.nats.now }
    requires sender { is_nat (node_at all.topology.now sending.nat) ≡ true }
    ensures { (h : NatPasts) → NatsStand all.entry.topology.now all.entry.nats.now h
        → inward_of result ≡ goes_in all.entry.topology.now (map behind_of all.entry.chain.now)
        (once_sent all.entry.topology.now (map behind_of all.entry.chain.now) h sending.now.0 sending.nat sending.inside sending.dst) sending.now.0 src
        (map behind_of at_most.now) number inside }
{
    let Some(inside) = inside else {
        return Way::Closed { nat: number };
    };
    let [_, rest @ ..] = at_most else {
        return Way::In {
            nat: number,
            inside,
        };
    };
    let Some(inner) = inner_at(all.topology, all.chain, number, inside.ip) else {
        return Way::In {
            nat: number,
            inside,
        };
    };
    let further = let_in_once(all, sending, inner, src, inside.port);
    go_in_once(all, rest, sending, src, inner, further)
}

/// The way of a datagram that would come to a port of a NAT.
pub fn come_in_once(all: Nats<'_>, sending: Sending, number: u16, src: Ep, port: u16) -> Way
    requires rows { AreNatsOf all.topology.now all.nats.now }
    requires rules { is_chain all.topology.now (map behind_of all.chain.now) ≡ true }
    requires ready { NatsReady sending.now.0 all.nats.now }
    requires sender { is_nat (node_at all.topology.now sending.nat) ≡ true }
    requires there { NatIsThere all.nats.now number }
    ensures { (h : NatPasts) → NatsStand all.entry.topology.now all.entry.nats.now h
        → inward_of result ≡ chain_in all.entry.topology.now (map behind_of all.entry.chain.now)
        (once_sent all.entry.topology.now (map behind_of all.entry.chain.now) h sending.now.0 sending.nat sending.inside sending.dst) sending.now.0 number src port }
{
    let inside = let_in_once(all, sending, number, src, port);
    go_in_once(all, all.chain, sending, src, number, inside)
}
