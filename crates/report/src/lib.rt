//! The report of a run: a line for each record, and the totals.
//!
//! # What the layer above may rely on
//!
//! - `line` puts a record's line in place of what the buffer held, and a line always fits. `put_number`, `put_node` and
//!   `put_mark` append parts of it, for other lines.
//! - Sums that were added up over the records of a history are its totals, and `summary` is their line.
//!
//! # What it does not know
//!
//! What a node does, and which record comes next.
//!
//! # Parts
//!
//! | module | holds | stated in |
//! |---|---|---|
//! | `fields`, `marks` | the parts of a line | `specs/Lines.antt` |
//! | `lines` | `line` | `specs/Lines.antt` |
//! | `totals` | `Sums`, `summary` | `specs/Totals.antt` |
#![tactic(auto)]

mod fields;
mod lines;
mod marks;
mod totals;

pub use fields::{put_node, put_number};
pub use lines::line;
pub use marks::{MARK_LEN, put_mark};
pub use totals::{Sums, summary};
