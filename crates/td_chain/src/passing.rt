//! Datagrams pass NATs, one after the other.
ghost use Rattle.std.specs.Prelude.{◌≡◌, ◌≤◌, ◌∷◌, [], ℕ, List, map, Some, Ok, Err, IfSome};
ghost use Rattle.nat_kinds.specs.Mappings.{live_port};
ghost use Rattle.nat_kinds.specs.Answer.{live_after};
ghost use Rattle.topology.specs.Rows.{TopologyState};
ghost use Rattle.topology.specs.Chains.{NatPasts, Passing, after_passing, nat_set_up, outer_in, nats_from, way_out, let_in};
ghost use Rattle.td_chain.specs.Nestings.{behind_of};
ghost use Rattle.td_chain.specs.Chains.{NatsStand, set_ups, NatIsThere, NatsReady, Crosses};
ghost use Rattle.td_chain.specs.Pass.{Passes};

use crate::nesting::{Nesting, outer_in};
use nat_kinds::{Nat, NatRefusal};
use td_base::{Ep, Millis};

/// A datagram on its way out: when, and where to.
#[derive(Clone, Copy, Debug)]
pub struct Leaving {
    pub now: Millis,
    pub dst: Ep,
}

/// The external endpoint that the NAT of a number gives.
fn pass(nats: &mut [Option<Nat>], number: u16, leaving: Leaving, from: Ep) -> Result<Ep, NatRefusal>
    requires there { NatIsThere nats.old number }
    requires ready { NatsReady leaving.now.0 nats.old }
    ensures passes { (t : TopologyState) (h : NatPasts) (passed : List Passing) → NatsStand t nats.old (after_passing passed h)
        → Passes t h leaving.now.0 from leaving.dst passed number result nats.new }
    ensures ready { NatsReady leaving.now.0 nats.new }
    ensures rows { set_ups nats.new ≡ set_ups nats.old }
{
    let Some(nat) = &mut nats[usize::from(number)] else {
        unreachable!()
    };
    nat.outward(leaving.now, from, leaving.dst)
}

/// The endpoint that the last of the NATs gives from one outwards, at most so many.
pub fn pass_on(
    nats: &mut [Option<Nat>],
    chain: &[Nesting],
    at_most: &[Nesting],
    next: Option<u16>,
    leaving: Leaving,
    from: Ep,
) -> Result<Ep, NatRefusal>
    requires there { IfSome next (NatIsThere nats.old) }
    requires outer { (k o : ℕ) → outer_in (map behind_of chain.now) k ≡ Some o → NatIsThere nats.old o }
    requires ready { NatsReady leaving.now.0 nats.old }
    ensures crosses { (t : TopologyState) (h : NatPasts) (passed : List Passing) → NatsStand t nats.old (after_passing passed h)
        → Crosses t h leaving.now.0 from leaving.dst passed (nats_from (map behind_of chain.now) (map behind_of at_most.now) next) result nats.new }
    ensures ready { NatsReady leaving.now.0 nats.new }
    ensures rows { set_ups nats.new ≡ set_ups nats.old }
{
    let Some(number) = next else {
        return Ok(from);
    };
    let [_, rest @ ..] = at_most else {
        return Ok(from);
    };
    let external = pass(nats, number, leaving, from)?;
    pass_on(
        nats,
        chain,
        rest,
        outer_in(chain, number),
        leaving,
        external,
    )
}

/// The endpoint that the outermost NAT gives a datagram from behind one.
pub fn pass_out(
    nats: &mut [Option<Nat>],
    chain: &[Nesting],
    number: u16,
    leaving: Leaving,
    from: Ep,
) -> Result<Ep, NatRefusal>
    requires there { NatIsThere nats.old number }
    requires outer { (k o : ℕ) → outer_in (map behind_of chain.now) k ≡ Some o → NatIsThere nats.old o }
    requires ready { NatsReady leaving.now.0 nats.old }
    ensures crosses { (t : TopologyState) (h : NatPasts) (passed : List Passing) → NatsStand t nats.old (after_passing passed h)
        → Crosses t h leaving.now.0 from leaving.dst passed (way_out (map behind_of chain.now) number) result nats.new }
    ensures ready { NatsReady leaving.now.0 nats.new }
    ensures rows { set_ups nats.new ≡ set_ups nats.old }
{
    let external = pass(nats, number, leaving, from)?;
    let outside = outer_in(chain, number);
    pass_on(nats, chain, chain, outside, leaving, external)
}

/// The inside endpoint that the NAT of a number lets a datagram in to.
pub fn let_in(nats: &[Option<Nat>], number: u16, now: Millis, src: Ep, port: u16) -> Option<Ep>
    requires there { NatIsThere nats.now number }
    requires ready { NatsReady now.0 nats.now }
    ensures { (t : TopologyState) (h : NatPasts) → NatsStand t nats.now h → result ≡ let_in t h now.0 number src port }
{
    let Some(nat) = &nats[usize::from(number)] else {
        unreachable!()
    };
    nat.inward(now, src, port)
}

/// The port that the NAT of a number has live for datagrams from `inside` to `dst`.
pub fn port_at(nats: &[Option<Nat>], number: u16, now: Millis, inside: Ep, dst: Ep) -> Option<u16>
    requires there { NatIsThere nats.now number }
    requires ready { NatsReady now.0 nats.now }
    ensures { (t : TopologyState) (h : NatPasts) → NatsStand t nats.now h
        → result ≡ live_port (nat_set_up t number).kind inside dst (live_after (nat_set_up t number) (h number) now.0) }
{
    let Some(nat) = &nats[usize::from(number)] else {
        unreachable!()
    };
    nat.port(now, inside, dst)
}
