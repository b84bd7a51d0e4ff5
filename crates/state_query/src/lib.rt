//! What nodes keep, asked of a world.
//!
//! # What the layer above may rely on
//!
//! - Whatever history a world stands for, `own_line` gives the line on a client or a relay after it: of a client its phase and its
//!   address, and of both when they are due (`specs/OwnFacts.antt`).
//! - `peer_line` gives the line on what such a node knows of an address that it lists (`specs/PeerFacts.antt`).
//!
//! # What it does not know
//!
//! How a world is played and what it keeps: it asks the world for a node. When a line is written.
//!
//! # Parts
//!
//! | module | holds | stated in |
//! |---|---|---|
//! | `own_lines` | the line on a client or a relay, its peers aside | `specs/OwnFacts.antt` |
//! | `peer_lines` | the line on what it knows of a peer | `specs/PeerFacts.antt` |
#![tactic(auto)]

mod own_lines;
mod peer_lines;

pub use own_lines::own_line;
pub use peer_lines::{changed_peer_line, peer_line};
