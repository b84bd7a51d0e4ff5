//! The NATs of a topology before anything happens.
ghost use Rattle.std.specs.Prelude.{◌≡◌, ◌≤◌, [], length, option_map, IfOk, IfSome};
ghost use Rattle.nat_kinds.specs.Nat.{NatStandsFor};
ghost use Rattle.topology.specs.Topology.{as_nat, nat_settings};
ghost use Rattle.td_chain.specs.Chains.{NatsStand, AreNatsOf, NatsReady};

use nat_kinds::Nat;
use std::alloc::Global;
use td_base::NoMemory;
use topology::{Node, Topology};

/// The NAT of a node, if it is one.
fn first_nat(alloc: Global, node: Node) -> Option<Nat>
    ensures row { option_map (λ nat. nat.settings) result ≡ option_map nat_settings (as_nat node) }
    ensures stands { IfSome result (λ nat. NatStandsFor nat []) }
    ensures moment { IfSome result (λ nat. nat.moment ≡ 0) }
{
    match node {
        Node::Nat(row) => Some(Nat::new(alloc, row.kind, row.external, row.idle)),
        Node::Server(_) => None,
        Node::Client(_) => None,
        Node::Relay(_) => None,
        Node::Native(_) => None,
    }
}

/// All NATs, by their numbers.
pub fn first_nats(alloc: Global, topology: &Topology) -> Result<Vec<Option<Nat>>, NoMemory>
    ensures rows { IfOk result (λ list. AreNatsOf topology.now list.items) }
    ensures stand { IfOk result (λ list. NatsStand topology.now list.items (λ k. [])) }
    ensures ready { IfOk result (λ list. NatsReady 0 list.items) }
{
    let mut list = Vec::new(alloc);
    while let Some(node) = topology.node(list.len()) {
        list.push(first_nat(alloc, node))?;
    }
    Ok(list)
}
