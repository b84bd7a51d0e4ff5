//! A laboratory of servers and clients in which NATs stand behind others, by the text of a chain.
//!
//! # What the layer above may rely on
//!
//! - There is one exactly where the text asks for a chain of its NATs and no node is a relay or a native host: `Nested::new`
//!   and `chains_of` answer the first of the two reasons against it (`specs/Nested.antt`).
//! - It stands for histories as a world does, which `world` says, with this chain: a new one for the history without
//!   records, and `Nested::step` gives the record that follows.
//!
//! # What it does not know
//!
//! How a datagram passes NATs, which `td_chain` knows, and what a node does: it holds a world and looks into nothing.
//!
//! # Parts
//!
//! | module | holds | stated in |
//! |---|---|---|
//! | `nested_fault` | why there is no such laboratory | `specs/Nested.antt` |
//! | `nested_chains` | the NATs of a text and a topology | `specs/Nested.antt` |
//! | `left_out` | the events that it isn't asked for | `specs/Nested.antt` |
//! | `laws` | what `-` asks for | `specs/Nested.antt` |
//! | `nested` | `Nested` | `specs/Nested.antt`, and as a world |
#![tactic(auto)]

mod laws;
mod left_out;
mod nested;
mod nested_chains;
mod nested_fault;

pub use laws::dash_is_flat;
pub use left_out::is_left_out;
pub use nested::Nested;
pub use nested_chains::chains_of;
pub use nested_fault::NestedFault;
