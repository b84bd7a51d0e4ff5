//! NATs forget, one at a time.
ghost use Rattle.std.specs.Prelude.{◌≡◌, ℕ};
ghost use Rattle.nat_kinds.specs.History.{Forget, Restart};
ghost use Rattle.topology.specs.Rows.{TopologyState};
ghost use Rattle.topology.specs.Chains.{NatPasts};
ghost use Rattle.td_chain.specs.Chains.{NatsStand, set_ups, NatIsThere, NatsReady, with_nat_entry};

use nat_kinds::Nat;
use td_base::Ep;

/// Lets the NAT of a number drop the mappings of an inside endpoint.
pub fn forget_at(nats: &mut [Option<Nat>], number: u16, inside: Ep)
    requires there { NatIsThere nats.old number }
    ensures stands { (t : TopologyState) (h : NatPasts) → NatsStand t nats.old h → NatsStand t nats.new (with_nat_entry number (Forget inside) h) }
    ensures ready { (m : ℕ) → NatsReady m nats.old → NatsReady m nats.new }
    ensures rows { set_ups nats.new ≡ set_ups nats.old }
{
    let Some(nat) = &mut nats[usize::from(number)] else {
        unreachable!()
    };
    nat.forget(inside);
}

/// Lets the node of a number start anew. Where it is no NAT nothing changes.
pub fn restart_at(nats: &mut [Option<Nat>], number: u16)
    ensures stands { (t : TopologyState) (h : NatPasts) → NatsStand t nats.old h → NatsStand t nats.new (with_nat_entry number Restart h) }
    ensures ready { (m : ℕ) → NatsReady m nats.old → NatsReady m nats.new }
    ensures rows { set_ups nats.new ≡ set_ups nats.old }
{
    let place = usize::from(number);
    if place >= nats.len() {
        return;
    }
    let Some(nat) = &mut nats[place] else {
        return;
    };
    nat.restart();
}
