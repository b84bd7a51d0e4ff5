//! Tests of what the program meets outside, over its public surface, and forms that tell what they were asked.
//!
//! # What it does not know
//!
//! How the forms in memory and the adapters are made: it has their calls alone.
//!
//! # Parts
//!
//! | module | holds |
//! |---|---|
//! | `recorder` | `Recorder`, which shows that the lists of what was asked can be told |
//! | `connected` | a network whose sockets hear of errors |
//! | `memory_tests` | the forms in memory |
//! | `adapter_tests` | files, output, sockets and the clock of the system |
#![tactic(auto)]

#[cfg(test)]
mod adapter_tests;
#[cfg(test)]
mod connected;
#[cfg(test)]
mod memory_tests;
mod recorder;

pub use recorder::Recorder;
