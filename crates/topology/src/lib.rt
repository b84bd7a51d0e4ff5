//! The nodes of a scenario: servers, NATs, clients, relays and native hosts, by their numbers.
//!
//! # What the layer above may rely on
//!
//! A `Topology` holds the rows of a scenario's nodes, by number, and keeps the rules of `specs/Rules.antt`: names and
//! addresses differ, addresses are global, numbers are of nodes of the right kind. `==` on names is an opaque test with
//! laws (`specs/Names.antt`, `proofs/NameLemmas.antt`).
//!
//! # What it does not know
//!
//! Events, datagrams, and what a node does.
//!
//! # Parts
//!
//! | module | holds | stated in |
//! |---|---|---|
//! | `node_name` | `Name` | `specs/Names.antt` |
//! | `server_node`, `nat_node`, `client_node`, `relay_node`, `native_node` | a row for each kind of node | |
//! | `refresh_range` | the shortest and the longest time between two refreshes | `specs/Rules.antt` |
//! | `node` | a node of any kind | `specs/Topology.antt` |
//! | `topology` | `Topology` | `specs/Rows.antt`, `Topology.antt`, `Rules.antt`, `NodeNames.antt` |
//! | `places`, `names` | who is where, and who has a name | `specs/Topology.antt`, `Named.antt` |
//! | `laws` | the rules, read at one node; no address is that of two | `specs/NodeRules.antt` |
#![tactic(auto)]

mod client_node;
mod laws;
mod names;
mod nat_node;
mod native_node;
mod node;
mod node_name;
mod places;
mod refresh_range;
mod relay_node;
mod server_node;
mod topology;

pub use client_node::ClientNode;
pub use laws::{apart, each_node, taken, topology_numbers};
pub use names::{client_named, host_named, nat_named, node_named, relay_named, server_named};
pub use nat_node::{IDLE_MAX_MS, NatNode};
pub use native_node::NativeNode;
pub use node::Node;
pub use node_name::{NAME_LEN, Name};
pub use refresh_range::{
    REFRESH_HIGH_MS, REFRESH_LOW_MS, REFRESH_MAX_MS, REFRESH_MIN_MS, RefreshRange,
};
pub use relay_node::RelayNode;
pub use server_node::ServerNode;
pub use topology::{
    CLIENTS_MAX, NATIVES_MAX, NATS_MAX, NODES_MAX, RELAYS_MAX, SERVERS_MAX, Topology,
};
