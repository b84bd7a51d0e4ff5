//! The NATs on a way out.
ghost use Rattle.std.specs.Prelude.{◌≡◌, ℕ, map};
ghost use Rattle.std.specs.List.{list_any, list_all};
ghost use Rattle.nat_kinds.specs.Kinds.{is_symmetric, is_cone_kind};
ghost use Rattle.topology.specs.Chains.{nats_from, way_out, last_nat, nat_set_up, outer_in};
ghost use Rattle.td_chain.specs.Nestings.{behind_of};

use crate::nesting::{Nesting, outer_in};
use nat_kinds::NatKind;
use topology::{Node, Topology};

/// The last NAT from one outwards, where a next one may follow: at most so many more are passed.
fn last_from(chain: &[Nesting], at_most: &[Nesting], nat: u16, next: Option<u16>) -> u16
    ensures { result ≡ last_nat nat (nats_from (map behind_of chain.now) (map behind_of at_most.now) next) }
{
    let Some(outside) = next else {
        return nat;
    };
    let [_, rest @ ..] = at_most else {
        return nat;
    };
    last_from(chain, rest, outside, outer_in(chain, outside))
}

/// The NAT at which the way out from behind a NAT ends.
pub fn outermost(chain: &[Nesting], nat: u16) -> u16
    ensures { result ≡ last_nat nat (nats_from (map behind_of chain.now) (map behind_of chain.now) (outer_in (map behind_of chain.now) nat)) }
{
    last_from(chain, chain, nat, outer_in(chain, nat))
}

/// The kind of the NAT of a number.
fn kind_of(topology: &Topology, number: u16) -> NatKind
    ensures { result ≡ (nat_set_up topology.now number).kind }
{
    match topology.node(usize::from(number)) {
        Some(Node::Nat(row)) => row.kind,
        _ => NatKind::Cone,
    }
}

/// Whether the NAT of a number is symmetric.
fn is_symmetric(topology: &Topology, number: u16) -> bool
    ensures { result ≡ is_symmetric (nat_set_up topology.now number).kind }
{
    match kind_of(topology, number) {
        NatKind::Symmetric => true,
        _ => false,
    }
}

/// Whether it is a full cone.
fn is_cone(topology: &Topology, number: u16) -> bool
    ensures { result ≡ is_cone_kind (nat_set_up topology.now number).kind }
{
    match kind_of(topology, number) {
        NatKind::Cone => true,
        _ => false,
    }
}

/// Whether some NAT from one outwards, if there is one, is symmetric: at most so many are passed.
fn symmetric_from(
    topology: &Topology,
    chain: &[Nesting],
    at_most: &[Nesting],
    next: Option<u16>,
) -> bool
    ensures { result
        ≡ list_any (λ (k : ℕ). is_symmetric (nat_set_up topology.now k).kind) (nats_from (map behind_of chain.now) (map behind_of at_most.now) next) }
{
    let Some(nat) = next else {
        return false;
    };
    let [_, rest @ ..] = at_most else {
        return false;
    };
    is_symmetric(topology, nat) || symmetric_from(topology, chain, rest, outer_in(chain, nat))
}

/// Whether some NAT on the way out from behind a NAT is symmetric.
pub fn has_symmetric(topology: &Topology, chain: &[Nesting], nat: u16) -> bool
    ensures { result ≡ list_any (λ (k : ℕ). is_symmetric (nat_set_up topology.now k).kind) (way_out (map behind_of chain.now) nat) }
{
    is_symmetric(topology, nat) || symmetric_from(topology, chain, chain, outer_in(chain, nat))
}

/// Whether each NAT from one outwards, if there is one, is a full cone: at most so many are passed.
fn cone_from(topology: &Topology, chain: &[Nesting], at_most: &[Nesting], next: Option<u16>) -> bool
    ensures { result
        ≡ list_all (λ (k : ℕ). is_cone_kind (nat_set_up topology.now k).kind) (nats_from (map behind_of chain.now) (map behind_of at_most.now) next) }
{
    let Some(nat) = next else {
        return true;
    };
    let [_, rest @ ..] = at_most else {
        return true;
    };
    is_cone(topology, nat) && cone_from(topology, chain, rest, outer_in(chain, nat))
}

/// Whether each NAT on the way out from behind a NAT is a full cone.
pub fn is_all_cone(topology: &Topology, chain: &[Nesting], nat: u16) -> bool
    ensures { result ≡ list_all (λ (k : ℕ). is_cone_kind (nat_set_up topology.now k).kind) (way_out (map behind_of chain.now) nat) }
{
    is_cone(topology, nat) && cone_from(topology, chain, chain, outer_in(chain, nat))
}
