//! The question `reach`, asked of a world: what becomes of the next packet from one host to another; and the listener that
//! writes the answers on all of them.
//!
//! # What the layer above may rely on
//!
//! - Whatever history a world stands for, `word_on` gives the word on two nodes after it: who reaches whom, and why not
//!   (`Reach.antt` of `theory_reaching`). `is_host` says which numbers have one.
//! - At the end of a scenario `ReachWriter` is shown the world, and writes a line on each two hosts, with the word on them, and
//!   how many there are (`specs/ReachAccount.antt`).
//!
//! # What it does not know
//!
//! How a world is played, and what it keeps: it asks the world for a node, for its NATs, and for the route of a datagram. Which
//! word is on two nodes, and what a word promises, is said in `theory_reaching`, when a listener is called in `player`.
//!
//! # Parts
//!
//! | module | holds | stated in |
//! |---|---|---|
//! | `two_hosts` | the word on two nodes | `specs/Hosts.antt`, `Reach.antt` of `theory_reaching` |
//! | `two_clients` | what the table of words asks of two clients, as far as it looks | `specs/Asked.antt`, `BetweenClients.antt` of `theory_reaching` |
//! | `through_relay` | what the tables ask of a client, a native host and its relay, as far | `specs/Asked.antt`, `ThroughRelay.antt` of `theory_reaching` |
//! | `hosts` | hosts and relays with what is kept of them; whether a client is settled | `specs/Hosts.antt` |
//! | `speaking` | whether a client speaks to an endpoint | `Speaks.antt` of `theory_reaching` |
//! | `known` | what one look at a list of peers tells of an address | `specs/Looked.antt` |
//! | `reach_writer` | `ReachWriter` | `specs/ReachAccount.antt` |
//! | `pair_line`, `pair_counts` | the line on two hosts; how many there are, by what is said of them | `specs/PairLines.antt` |
#![tactic(auto)]

mod hosts;
mod known;
mod pair_counts;
mod pair_line;
mod reach_writer;
mod speaking;
mod through_relay;
mod two_clients;
mod two_hosts;

pub use reach_writer::ReachWriter;
pub use two_hosts::{is_host, word_on};
