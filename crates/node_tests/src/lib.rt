//! The tests of what a node answers: steps and turns, the server and its audit, what a client and a relay know of their
//! peers, a client's qualification, client, relay and NAT, each over its public surface.
//!
//! A crate with tests is proved twice, so those of `teredo_node`, `td_turns`, `server_core`, `td_audit`, `peer_list`,
//! `qualify`, `client_core`, `relay_core` and `nat_kinds` stand here, once for all of them.
//!
//! # What it does not know
//!
//! Private items of any crate: nothing is made public for a test.
//!
//! # Parts
//!
//! | module | tries |
//! |---|---|
//! | `steps` | `teredo_node` |
//! | `turns` | `td_turns`, with an endpoint of its own |
//! | `servers` | `server_core` |
//! | `audits` | `td_audit` |
//! | `peers` | `peer_list` |
//! | `qualifiers` | `qualify` |
//! | `clients` | `client_core` |
//! | `relays` | `relay_core` |
//! | `nats` | `nat_kinds` |
#![tactic(auto)]

#[cfg(test)]
mod audits;
#[cfg(test)]
mod clients;
#[cfg(test)]
mod nats;
#[cfg(test)]
mod peers;
#[cfg(test)]
mod qualifiers;
#[cfg(test)]
mod relays;
#[cfg(test)]
mod servers;
#[cfg(test)]
mod steps;
#[cfg(test)]
mod turns;
