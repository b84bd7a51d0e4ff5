//! The laboratory's world: it plays one event at a time on the nodes, the NATs and the wire, whichever NATs are behind
//! others.
//!
//! # What the layer above may rely on
//!
//! - A new world stands for the history without records.
//! - Whatever history a world stands for, `World::step` gives the record that follows in it, and the world then
//!   stands for the history with that record (`specs/World.antt`).
//! - It tells a node with what is kept of it, its NATs, and where a datagram would go (`specs/Route.antt`).
//! - At a stop a world stands for its history still, but for the time; or, where a node had acted and what it sends had
//!   no place, its nodes stand for the history with the record (`specs/Halted.antt`). After it each step answers the
//!   stop, and the world stays as it is.
//!
//! # What it does not know
//!
//! Texts: neither scenarios nor lines; what is proved of every history. Which record follows is said in `legal`, who is where
//! in `topology`, what is kept of each node and what it does with what comes to it in `lab_nodes`, what is kept of NATs and the
//! ways through them in `td_chain`.
//!
//! # Parts
//!
//! | module | holds | stated in |
//! |---|---|---|
//! | `world` | `World`: nodes, NATs, wire and moment, and the step | `specs/World.antt`, `Halted.antt`, `Playing.antt` |
//! | `going` | an event that has further records | `specs/World.antt` |
//! | `act` | a node is asked, and what it sends comes onto the wire | `specs/Playing.antt` |
//! | `prompt` | what prompts a node, and what comes to it | `specs/Prompt.antt` |
//! | `deliveries`, `packets`, `datagrams`, `restarts`, `advance` | what each event does to a world | `specs/Playing.antt` |
//! | `sender`, `egress` | how what a node sends comes onto the wire; how a datagram leaves | `specs/Emission.antt`, `Egress.antt` |
//! | `wire` | everything that was sent, and what of it was delivered; the door onto it | `specs/Wire.antt` |
//! | `entries`, `wire_entry` | what is kept of what was sent; what is lent of it | `specs/Entries.antt`, `WireEntry.antt` |
//! | `route`, `guesses` | where an entry goes; where such ones went lately | `specs/Route.antt` |
//! | `lookup` | by what the route of a datagram is looked up | `specs/Lookup.antt` |
//! | `record` | what is said of a step | `specs/Record.antt` |
//! | `queries` | what a world tells, and changes nothing of | `specs/World.antt`, `Route.antt` |
//! | `laws` | what holds of the numbers | `specs/Numbers.antt` |
//!
//! # Beside the clauses
//!
//! A `World` is what its fields tell, and a `Wire` its entries, a flag for each and a number, and no byte more: a
//! constant says so beside each type, as of a client.
//!
//! Tested: that a world keeps nothing for each record but what it puts on the wire, be it a list of its own or a
//! journal of a node. `.ci/memory` plays long scenarios with the built program, and compares what memory they take; no
//! clause sees what is kept and never read.
#![tactic(auto)]

mod act;
mod advance;
mod datagrams;
mod deliveries;
mod egress;
mod entries;
mod going;
mod guesses;
mod laws;
mod lookup;
mod packets;
mod prompt;
mod queries;
mod record;
mod restarts;
mod route;
mod sender;
mod wire;
mod wire_entry;
mod world;

pub use laws::wire_numbers;
pub use record::blank;
pub use route::Route;
pub use wire::ENTRIES_MAX;
pub use wire_entry::WireEntry;
pub use world::World;
