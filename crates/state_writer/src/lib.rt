//! The writer of what nodes keep: a listener that tells after each record what it changed of it.
//!
//! # What the layer above may rely on
//!
//! - Before any record it writes a line on each thing that a node keeps then; of a record the lines on what it changed: of its
//!   node, and then of each NAT that let something of it out. They are those of `states` (`specs/StateAccount.antt`).
//! - It keeps nothing but how many records there were: all that a line says is asked of the world.
//!
//! # What it does not know
//!
//! How a world is played and what it keeps, how a line looks; the words of a command line and its statuses.
//!
//! # Parts
//!
//! | module | holds | stated in |
//! |---|---|---|
//! | `state_writer` | `StateWriter` | `specs/StateAccount.antt` |
//! | `at_first` | the lines before any record | `StateLines.antt` of `states` |
//! | `at_record` | the lines on what a record changed | `Concerned.antt` of `states` |
//! | `at_node` | those on its node | `specs/Writes.antt`, `specs/KnownFacts.antt` |
//! | `at_nats` | those on the NATs that let something of it out | `specs/Writes.antt`, `Walked.antt` of `states` |
#![tactic(auto)]

mod at_first;
mod at_nats;
mod at_node;
mod at_record;
mod state_writer;

pub use state_writer::StateWriter;
