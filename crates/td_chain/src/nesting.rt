//! A NAT behind another one.
ghost use Rattle.std.specs.Prelude.{◌≡◌, map, option_map};
ghost use Rattle.topology.specs.Rows.{TopologyState};
ghost use Rattle.topology.specs.Chains.{outer_in, is_inner, has_external, inner_at};
ghost use Rattle.topology.specs.Topology.{nat_at};
ghost use Rattle.td_chain.specs.Nestings.{behind_of};

use td_base::Ip4;
use topology::{Node, Topology};

/// A NAT whose datagrams pass another one on their way out, by their numbers.
#[derive(Clone, Copy, Debug)]
pub struct Nesting {
    pub inner: u16,
    pub outer: u16,
}

/// The NAT that a NAT is behind.
pub fn outer_in(chain: &[Nesting], nat: u16) -> Option<u16>
    ensures { result ≡ outer_in (map behind_of chain.now) nat }
{
    let [nesting, rest @ ..] = chain else {
        return None;
    };
    if nesting.inner == nat {
        return Some(nesting.outer);
    }
    outer_in(rest, nat)
}

/// Whether a NAT is behind another one.
pub fn is_inner(chain: &[Nesting], nat: u16) -> bool
    ensures { result ≡ is_inner (map behind_of chain.now) nat }
{
    outer_in(chain, nat).is_some()
}

/// Whether the node of a number is a NAT with this external address.
fn has_external(topology: &Topology, number: u16, ip: Ip4) -> bool
    ensures { result ≡ has_external ip (nat_at topology.now number) }
{
    match topology.node(usize::from(number)) {
        Some(Node::Nat(row)) => ip == row.external,
        _ => false,
    }
}

/// The NAT directly behind a NAT whose external address it is.
pub fn inner_at(topology: &Topology, chain: &[Nesting], nat: u16, ip: Ip4) -> Option<u16>
    ensures { result ≡ inner_at topology.now (map behind_of chain.now) nat ip }
{
    let [nesting, rest @ ..] = chain else {
        return None;
    };
    if nesting.outer == nat && has_external(topology, nesting.inner, ip) {
        return Some(nesting.inner);
    }
    inner_at(topology, rest, nat, ip)
}
