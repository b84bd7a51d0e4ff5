//! The tests of what the laboratory reads and makes: the events, the scenario's reader and the generator, each over its
//! public surface. Which text is refused at which place stands in `.ci/refusals`, which asks the built program.
//!
//! A crate with tests is proved twice, so those of `events`, `scenario` and `generator` stand here, once for all of them.
//!
//! # What it does not know
//!
//! Private items of any crate: nothing is made public for a test.
//!
//! # Parts
//!
//! | module | tries |
//! |---|---|
//! | `sample` | nothing: the nodes of `event_lines` |
//! | `event_lines` | `events` |
//! | `scenarios` | `scenario`, with a node of each kind |
//! | `generated` | `generator` |
#![tactic(auto)]

#[cfg(test)]
mod event_lines;
#[cfg(test)]
mod generated;
#[cfg(test)]
mod sample;
#[cfg(test)]
mod scenarios;
