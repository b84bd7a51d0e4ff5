//! What NATs would do with a datagram, were it sent now.
ghost use Rattle.std.specs.Prelude.{◌≡◌, ◌≤◌, ◌++◌, ℕ, [], List, map, true, IfSome};
ghost use Rattle.nat_kinds.specs.Answer.{leaves_from};
ghost use Rattle.topology.specs.Rows.{TopologyState};
ghost use Rattle.topology.specs.Named.{is_nat};
ghost use Rattle.topology.specs.Topology.{node_at};
ghost use Rattle.topology.specs.Chains.{NatPasts, Passing, crossing, nat_set_up, nats_from, outer_in, outs_at, way_out};
ghost use Rattle.td_chain.specs.Nestings.{behind_of};
ghost use Rattle.td_chain.specs.ChainRules.{is_chain};
ghost use Rattle.td_chain.specs.Chains.{NatsStand, AreNatsOf, NatIsThere, NatsReady, chain_out};
ghost use Rattle.td_chain.specs.Ascent.{AreBefore, out_of, LeavesFromPort};

use crate::entering::Nats;
use crate::nesting::{Nesting, outer_in};
use crate::passing::Leaving;
use crate::sending::Sending;
use nat_kinds::{Nat, NatRefusal, Outward};
use td_base::Ep;

/// Where the NAT of a number would let a datagram leave.
fn leave(nats: &[Option<Nat>], number: u16, leaving: Leaving, from: Ep) -> Result<Ep, NatRefusal>
    requires there { NatIsThere nats.now number }
    requires ready { NatsReady leaving.now.0 nats.now }
    ensures { (t : TopologyState) (h : NatPasts) → NatsStand t nats.now h
        → result ≡ leaves_from (nat_set_up t number) (h number) leaving.now.0 from leaving.dst }
{
    let Some(nat) = &nats[usize::from(number)] else {
        unreachable!()
    };
    nat.leaves(leaving.now, from, leaving.dst)
}

/// The NAT that a NAT is behind.
pub fn outside(all: Nats<'_>, number: u16) -> Option<u16>
    requires rules { is_chain all.topology.now (map behind_of all.chain.now) ≡ true }
    ensures value { result ≡ outer_in (map behind_of all.entry.chain.now) number }
    ensures there { IfSome result (λ k. is_nat (node_at all.entry.topology.now k) ≡ true) }
{
    outer_in(all.chain, number)
}

/// Where the last of the NATs would let it leave, from one outwards, at most so many.
fn leave_on(
    all: Nats<'_>,
    at_most: &[Nesting],
    next: Option<u16>,
    leaving: Leaving,
    from: Ep,
) -> Result<Ep, NatRefusal>
    requires rows { AreNatsOf all.topology.now all.nats.now }
    requires rules { is_chain all.topology.now (map behind_of all.chain.now) ≡ true }
    requires ready { NatsReady leaving.now.0 all.nats.now }
    requires there { IfSome next (λ k. is_nat (node_at all.topology.now k) ≡ true) }
    ensures { (h : NatPasts) (passed : List Passing) → NatsStand all.entry.topology.now all.entry.nats.now h → IfSome next (AreBefore passed)
        → result ≡ (crossing all.entry.topology.now h leaving.now.0 leaving.dst (nats_from (map behind_of all.entry.chain.now) (map behind_of at_most.now) next) from passed).leaves }
{
    let Some(number) = next else {
        return Ok(from);
    };
    let [_, rest @ ..] = at_most else {
        return Ok(from);
    };
    let external = leave(all.nats, number, leaving, from)?;
    let next = outside(all, number);
    leave_on(all, rest, next, leaving, external)
}

/// Where the outermost NAT would let it leave.
pub fn leave_out(all: Nats<'_>, sending: Sending) -> Result<Ep, NatRefusal>
    requires rows { AreNatsOf all.topology.now all.nats.now }
    requires rules { is_chain all.topology.now (map behind_of all.chain.now) ≡ true }
    requires ready { NatsReady sending.now.0 all.nats.now }
    requires there { is_nat (node_at all.topology.now sending.nat) ≡ true }
    ensures { (h : NatPasts) → NatsStand all.entry.topology.now all.entry.nats.now h
        → result ≡ chain_out all.entry.topology.now (map behind_of all.entry.chain.now) h sending.now.0 sending.nat sending.inside sending.dst }
{
    let leaving = Leaving {
        now: sending.now,
        dst: sending.dst,
    };
    let external = leave(all.nats, sending.nat, leaving, sending.inside)?;
    let next = outside(all, sending.nat);
    leave_on(all, all.chain, next, leaving, external)
}

/// What a NAT would let out of it, from one NAT outwards, at most so many.
fn let_out_on(
    all: Nats<'_>,
    at_most: &[Nesting],
    next: Option<u16>,
    leaving: Leaving,
    from: Ep,
    at: u16,
) -> Option<Outward>
    requires rows { AreNatsOf all.topology.now all.nats.now }
    requires rules { is_chain all.topology.now (map behind_of all.chain.now) ≡ true }
    requires ready { NatsReady leaving.now.0 all.nats.now }
    requires there { IfSome next (λ k. is_nat (node_at all.topology.now k) ≡ true) }
    ensures outs { (h : NatPasts) (passed : List Passing) → NatsStand all.entry.topology.now all.entry.nats.now h → IfSome next (AreBefore passed)
        → outs_at at (crossing all.entry.topology.now h leaving.now.0 leaving.dst (nats_from (map behind_of all.entry.chain.now) (map behind_of at_most.now) next) from passed).passed
        ≡ out_of result ++ outs_at at passed }
    ensures answered { (h : NatPasts) → NatsStand all.entry.topology.now all.entry.nats.now h → IfSome result (LeavesFromPort all.entry.topology.now h leaving.now.0 at) }
    ensures moment { IfSome result (λ e. e.moment ≡ leaving.now) }
{
    let Some(number) = next else {
        return None;
    };
    let [_, rest @ ..] = at_most else {
        return None;
    };
    let Ok(external) = leave(all.nats, number, leaving, from) else {
        return None;
    };
    if number == at {
        return Some(Outward {
            moment: leaving.now,
            inside: from,
            dst: leaving.dst,
            port: external.port,
        });
    }
    let next = outside(all, number);
    let_out_on(all, rest, next, leaving, external, at)
}

/// What a NAT would let out of it.
pub fn let_out_at(all: Nats<'_>, sending: Sending, at: u16) -> Option<Outward>
    requires rows { AreNatsOf all.topology.now all.nats.now }
    requires rules { is_chain all.topology.now (map behind_of all.chain.now) ≡ true }
    requires ready { NatsReady sending.now.0 all.nats.now }
    requires there { is_nat (node_at all.topology.now sending.nat) ≡ true }
    ensures outs { (h : NatPasts) → NatsStand all.entry.topology.now all.entry.nats.now h
        → outs_at at (crossing all.entry.topology.now h sending.now.0 sending.dst (way_out (map behind_of all.entry.chain.now) sending.nat) sending.inside []).passed ≡ out_of result }
    ensures answered { (h : NatPasts) → NatsStand all.entry.topology.now all.entry.nats.now h → IfSome result (LeavesFromPort all.entry.topology.now h sending.now.0 at) }
    ensures moment { IfSome result (λ e. e.moment ≡ sending.now) }
{
    let leaving = Leaving {
        now: sending.now,
        dst: sending.dst,
    };
    let Ok(external) = leave(all.nats, sending.nat, leaving, sending.inside) else {
        return None;
    };
    if sending.nat == at {
        return Some(Outward {
            moment: sending.now,
            inside: sending.inside,
            dst: sending.dst,
            port: external.port,
        });
    }
    let next = outside(all, sending.nat);
    let_out_on(all, all.chain, next, leaving, external, at)
}
