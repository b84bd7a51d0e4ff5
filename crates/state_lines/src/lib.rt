//! The text of the lines on what a node keeps.
//!
//! # What the layer above may rely on
//!
//! - Each call puts one line in place of what a buffer held: that of `StateLines.antt` of `states`, on a port of a NAT
//!   and on whom it lets in there, on a client and a relay, on what these know of a peer, and on what is void.
//! - The lines on what a NAT let out, its port and whom the NAT lets in there since then, are made of the datagram and of how
//!   the NAT is set up.
//! - No line needs more than a buffer has.
//!
//! # What it does not know
//!
//! What a node keeps, and whence it is known; when a line is written.
//!
//! # Parts
//!
//! | module | holds | stated in |
//! |---|---|---|
//! | `fields` | of which record and node a line is, numbers, moments, addresses | `StateLines.antt` of `states` |
//! | `nat_lines` | ports, whom they let in, what is void | the same |
//! | `node_lines` | a client, a relay | the same |
//! | `passed_lines` | the lines on what a NAT let out | the same, `Kept.antt` of `states` |
//! | `peer_lines` | what they know of a peer | the same, `specs/Moments.antt` |
//!
//! # Beside the clauses
//!
//! Each call puts one line in place of what its buffer held, and the line is `fact_line` of `states/StateLines.antt`.
//! Whether what the line says is what a node keeps, and when it is written, is not said here.
#![tactic(auto)]

mod fields;
mod nat_lines;
mod node_lines;
mod passed_lines;
mod peer_lines;

pub use fields::Stamp;
pub use nat_lines::{forgets_line, lets_address_line, lets_endpoint_line, port_line, void_line};
pub use node_lines::{client_line, relay_line};
pub use passed_lines::{passed_lets_line, passed_port_line};
pub use peer_lines::{client_peer_line, relay_peer_line};
