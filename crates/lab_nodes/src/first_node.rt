//! The nodes of a topology before anything happens.
ghost use Rattle.std.specs.Prelude.{◌≡◌, ◌≤◌, ◌+◌, [], Some, List, length, IfOk};
ghost use Rattle.topology.specs.declared.topology.TheConstants.{NODES_MAX};
ghost use Rattle.topology.specs.Chains.{Behind};
ghost use Rattle.topology.specs.Topology.{node_at, server_at};
ghost use Rattle.legal.specs.Lab.{draws, stream_key, lab_on};
ghost use Rattle.legal.specs.Past.{new_journal};
ghost use Rattle.legal.specs.Settings.{primary_of, secondary_of, client_settings, served, relay_settings};
ghost use Rattle.qualify.specs.Qualifier.{IsSettings};
ghost use Rattle.relay_core.specs.Relay.{relay_callable_from};
ghost use Rattle.client_core.specs.Client.{callable_from};
ghost use Rattle.lab_nodes.specs.PlayedNode.{row_of, past_of, IsClientOf, IsRelayOf, IsKept, NodesOf, IsReady, AreReady};

use crate::played_node::PlayedNode;
use client_core::Client;
use qualify::Settings;
use rand_chacha::ChaCha20Rng;
use rand_core::SeedableRng;
use relay_core::Relay;
use std::alloc::Global;
use td_base::{Ip4, Ip6, Millis, NoMemory, Policy, put64};
use topology::{ClientNode, Node, RelayNode, Topology};

/// How many bytes the seed of a stream of random words has.
const STREAM_SEED: usize = 32;

/// The seed of a node's stream of random words.
fn stream_seed(seed: u64, number: usize) -> [u8; STREAM_SEED]
    ensures { result ≡ stream_key seed number }
{
    let mut bytes = [0; STREAM_SEED];
    put64(&mut bytes, 0, seed);
    put64(&mut bytes, 8, number as u64);
    bytes
}

/// The two addresses of the server of a number.
fn server_addresses(topology: &Topology, number: u16) -> (Ip4, Ip4)
    ensures primary { result.0 ≡ primary_of (server_at topology.now number) }
    ensures secondary { result.1 ≡ secondary_of (server_at topology.now number) }
{
    match topology.node(usize::from(number)) {
        Some(Node::Server(row)) => (row.primary, row.secondary),
        _ => (Ip4([0; 4]), Ip4([0; 4])),
    }
}

/// How a client is set up.
fn settings_of(topology: &Topology, row: ClientNode) -> Settings
    ensures { result ≡ client_settings topology.now row }
{
    let (primary, secondary) = server_addresses(topology, row.server);
    Settings {
        inside: row.inside,
        primary,
        secondary,
        policy: Policy::Strict,
        low: row.refresh.low_ms,
        high: row.refresh.high_ms,
        random: row.random,
        cone_try: row.cone_try,
    }
}

/// A client that starts at moment 0, with its own stream of random words.
fn first_client(
    alloc: Global,
    topology: &Topology,
    seed: u64,
    number: usize,
    row: ClientNode,
) -> Client
    requires settings { IsSettings (client_settings topology.now row) }
    ensures kept { IsClientOf (client_settings topology.now row) result (new_journal 0) (λ k. draws seed number (0 + k)) }
    ensures moment { callable_from result ≡ 0 }
{
    let rng = ChaCha20Rng::from_seed(stream_seed(seed, number));
    Client::new(alloc, settings_of(topology, row), rng, Millis(0))
}

/// The addresses of the native hosts that name the relay of a number.
fn served(alloc: Global, topology: &Topology, number: usize) -> Result<Vec<Ip6>, NoMemory>
    ensures { IfOk result (λ list. list.items ≡ served topology.now number) }
{
    let mut list = Vec::new(alloc);
    for row in topology.natives() {
        if usize::from(row.relay) == number {
            list.push(row.six)?;
        }
    }
    Ok(list)
}

/// A relay that starts.
fn first_relay(
    alloc: Global,
    topology: &Topology,
    number: usize,
    row: RelayNode,
) -> Result<Relay, NoMemory>
    ensures kept { IfOk result (λ relay. IsRelayOf (relay_settings topology.now number row) relay []) }
    ensures moment { IfOk result (λ relay. relay_callable_from relay ≡ 0) }
{
    let list = served(alloc, topology, number)?;
    Ok(Relay::new(alloc, row.at, row.six, Policy::Strict, list))
}

/// A node to which nothing happened yet.
fn first_node(
    alloc: Global,
    topology: &Topology,
    seed: u64,
    number: usize,
    node: Node,
) -> Result<PlayedNode, NoMemory>
    requires there { node_at topology.now number ≡ Some node }
    ensures row { IfOk result (λ p. row_of p ≡ node) }
    ensures kept { IfOk result (λ p. (chain : List Behind) → IsKept topology.now number (past_of (lab_on (draws seed) topology.now chain) number []) p) }
    ensures ready { IfOk result (λ p. IsReady 0 p) }
{
    // for the proof: its rules
    let _rules = topology.clients();
    Ok(match node {
        Node::Server(row) => PlayedNode::Server { row },
        Node::Nat(row) => PlayedNode::Nat { row },
        Node::Client(row) => PlayedNode::Client {
            row,
            client: first_client(alloc, topology, seed, number, row),
        },
        Node::Relay(row) => PlayedNode::Relay {
            row,
            relay: first_relay(alloc, topology, number, row)?,
        },
        Node::Native(row) => PlayedNode::Native { row },
    })
}

/// All nodes, by their numbers, to which nothing happened yet. The seed is that of their random words.
pub fn first_nodes(
    alloc: Global,
    topology: &Topology,
    seed: u64,
) -> Result<Vec<PlayedNode>, NoMemory>
    ensures kept { IfOk result (λ list. (chain : List Behind) → NodesOf (lab_on (draws seed) topology.now chain) list.items []) }
    ensures few { IfOk result (λ list. length list.items ≤ NODES_MAX) }
    ensures ready { IfOk result (λ list. AreReady 0 list.items) }
{
    let mut list = Vec::new(alloc);
    while let Some(node) = topology.node(list.len()) {
        let first = first_node(alloc, topology, seed, list.len(), node)?;
        list.push(first)?;
    }
    Ok(list)
}
