//! Which chains of NATs may be asked for.
ghost use Rattle.std.specs.Prelude.{◌≡◌, ◌≤◌, ◌+◌, nat_le, map, length};
ghost use Rattle.std.specs.List.{list_all};
ghost use Rattle.td_chain.specs.declared.rules.TheConstants.{WAY_MAX};
ghost use Rattle.topology.specs.Named.{is_nat};
ghost use Rattle.topology.specs.Topology.{node_at};
ghost use Rattle.topology.specs.Chains.{nats_from, way_out};
ghost use Rattle.td_chain.specs.Nestings.{behind_of};
ghost use Rattle.td_chain.specs.ChainRules.{is_link, each_once, is_apart, is_chain};

use crate::nesting::{Nesting, inner_at, is_inner, outer_in};
use topology::{ClientNode, Node, Topology};

/// How many NATs stand one behind the other at most.
pub const WAY_MAX: usize = 3;

/// Whether the node of a number is a NAT.
fn is_nat(topology: &Topology, number: u16) -> bool
    ensures { result ≡ is_nat (node_at topology.now number) }
{
    match topology.node(usize::from(number)) {
        Some(Node::Nat(_)) => true,
        _ => false,
    }
}

/// How many NATs stand from a NAT outwards, if there is one: at most so many.
fn len_from(chain: &[Nesting], at_most: &[Nesting], nat: Option<u16>) -> usize
    ensures len { result ≡ length (nats_from (map behind_of chain.now) (map behind_of at_most.now) nat) }
    ensures few { result ≤ length at_most.now }
{
    let Some(nat) = nat else {
        return 0;
    };
    let [_, rest @ ..] = at_most else {
        return 0;
    };
    1 + len_from(chain, rest, outer_in(chain, nat))
}

/// Whether no more NATs than may be are on the way out from behind a NAT.
fn is_short(chain: &[Nesting], nat: u16) -> bool
    ensures { result ≡ nat_le (length (way_out (map behind_of chain.now) nat)) WAY_MAX }
{
    len_from(chain, chain, outer_in(chain, nat)) < WAY_MAX
}

/// Whether a NAT may be behind another one.
fn is_link(topology: &Topology, chain: &[Nesting], nesting: &Nesting) -> bool
    ensures { result ≡ is_link topology.now (map behind_of chain.now) (behind_of nesting.now) }
{
    is_nat(topology, nesting.inner)
        && is_nat(topology, nesting.outer)
        && nesting.inner < nesting.outer
        && is_short(chain, nesting.inner)
}

/// Whether each NAT is the inner one once.
fn each_once(chain: &[Nesting]) -> bool
    ensures { result ≡ each_once (map behind_of chain.now) }
{
    let [nesting, rest @ ..] = chain else {
        return true;
    };
    !is_inner(rest, nesting.inner) && each_once(rest)
}

/// Whether a client has the external address of no NAT beside it.
fn is_apart(topology: &Topology, chain: &[Nesting], row: &ClientNode) -> bool
    ensures { result ≡ is_apart topology.now (map behind_of chain.now) row.now }
{
    inner_at(topology, chain, row.nat, row.inside.ip).is_none()
}

/// Whether all of these may be behind others.
fn are_links(topology: &Topology, chain: &[Nesting], list: &[Nesting]) -> bool
    ensures { result ≡ list_all (is_link topology.now (map behind_of chain.now)) (map behind_of list.now) }
{
    let [nesting, rest @ ..] = list else {
        return true;
    };
    is_link(topology, chain, nesting) && are_links(topology, chain, rest)
}

/// Whether each of these clients has the external address of no NAT beside it.
fn are_apart(topology: &Topology, chain: &[Nesting], rows: &[ClientNode]) -> bool
    ensures { result ≡ list_all (is_apart topology.now (map behind_of chain.now)) rows.now }
{
    rows.iter().all(|row| is_apart(topology, chain, row))
}

/// Whether a chain keeps the rules.
#[tactic(auto, unfolding(crate::specs::ChainRules::is_chain))]
pub fn is_chain(topology: &Topology, chain: &[Nesting]) -> bool
    ensures { result ≡ is_chain topology.now (map behind_of chain.now) }
{
    are_links(topology, chain, chain)
        && each_once(chain)
        && are_apart(topology, chain, topology.clients())
}
