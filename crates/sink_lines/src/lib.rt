//! Lines that are written to a sink, each in pieces of its own.
//!
//! # What the layer above may rely on
//!
//! - `write_line` hands a sink the whole line as a piece, and what is left of it as each further one, until all of it is
//!   taken; where the sink fails, a front of the line was written (`specs/Lines.antt`).
//! - A line is any bytes that begin a piece of their own. What is written of several lines is said of their list.
//!
//! # What it does not know
//!
//! What stands in a line, and what ends one.
//!
//! # Parts
//!
//! | module | holds | stated in |
//! |---|---|---|
//! | `lines` | a line that is written to a sink | `specs/Lines.antt`, with `LineLaws.antt` |
#![tactic(auto)]

mod lines;

pub use lines::write_line;
