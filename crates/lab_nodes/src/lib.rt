//! What the laboratory keeps of each node, and what the node does with what comes to it.
//!
//! # What the layer above may rely on
//!
//! - A played node has its row and what is kept of it, which stands for its past in a history; the first nodes stand for
//!   the history without records (`specs/PlayedNode.antt`).
//! - For each past that it stood for, a node that is asked does what the next entry of its journal says, and then stands
//!   for the past with that entry. It tells how what it sends leaves it (`specs/Outlet.antt`). Memory is wanting only where
//!   the entry sends something, or may keep something (`specs/Answers.antt`, `Memory.antt`).
//! - A node that starts anew stands for its past with that. In each call one node changes, and keeps its row
//!   (`specs/Changes.antt`).
//! - The tick that is found is the one that is due first, and where none is found none is due by the moment that was given
//!   (`specs/Due.antt`); what a host sends has exactly the bytes of its packet.
//! - All due moments of the nodes, and all packets that wait in them, can be read off what is kept of them
//!   (`specs/DueMoments.antt`, `Waits.antt`).
//!
//! # What it does not know
//!
//! The wire, and how what a node sends comes there: neither what is kept of NATs, which is `td_chain`'s, nor which record is
//! written. What each kind of node does stands in its own crate, which record follows in `legal`.
//!
//! # Parts
//!
//! | module | holds | stated in |
//! |---|---|---|
//! | `played_node` | a node with what is kept of it, and what is asked of it | `specs/PlayedNode.antt`, `Changes.antt` |
//! | `nodes` | all nodes, by their numbers, and until when each of them is quiet | |
//! | `first_node`, `one_node` | the nodes at first; what is asked of one of them | |
//! | `call`, `input` | what is asked of a node | `specs/Call.antt` |
//! | `asked`, `outlet` | what comes of it besides its step | `specs/Answers.antt`, `Outlet.antt`, `Memory.antt` |
//! | `server`, `nat`, `client`, `relay`, `native` | the same for each kind of node | |
//! | `handed` | what a step hands of a datagram to others | |
//! | `one_arrival` | a server is lent a datagram | `specs/OneArrival.antt` |
//! | `due` | which tick is due first | `specs/Due.antt` |
//! | `host` | what the hosts of nodes send | |
//! | `laws` | what holds of each row of a topology, of all due moments, and of all that waits | `specs/Laws.antt`, `DueMoments.antt`, `Waits.antt` |
#![tactic(auto)]

mod asked;
mod call;
mod client;
mod due;
mod first_node;
mod handed;
mod host;
mod input;
mod laws;
mod nat;
mod native;
mod nodes;
mod one_arrival;
mod one_node;
mod outlet;
mod played_node;
mod relay;
mod server;

pub use asked::{Asked, SixPacket};
pub use call::Call;
pub use due::Due;
pub use handed::{PacketRoom, lend_part};
pub use host::{DATA_MAX, ECHO, address_at, echo, target_address, write_data};
pub use input::Input;
pub use laws::{due_as_in_the_past, rows_keep_rules, waits_as_in_the_past};
pub use nodes::Nodes;
pub use outlet::Outlet;
pub use played_node::PlayedNode;
