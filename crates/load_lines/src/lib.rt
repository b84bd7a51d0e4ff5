//! The text of the lines on where each packet went.
//!
//! # What the layer above may rely on
//!
//! - `said_line` and `whereabouts_line` put one line each in place of what a buffer held: that of `loads/FollowLines.antt`, on
//!   what a record does with a load, and on where a packet is in the end.
//! - Counts of ends that were added up over packets are those of all of them, and `counts_line` is their line.
//! - No line needs more than a buffer has.
//!
//! # What it does not know
//!
//! What a record says, and where a packet is; when a line is written.
//!
//! # Parts
//!
//! | module | holds | stated in |
//! |---|---|---|
//! | `said` | `said_line` | `loads/FollowLines.antt` |
//! | `ends` | `Packet`, `whereabouts_line` | the same |
//! | `counts` | `EndCounts`, `counts_line` | `specs/Counts.antt` |
//!
//! # Beside the clauses
//!
//! Whether what a line says is so, and when it is written, is not said here.
#![tactic(auto)]

mod counts;
mod ends;
mod said;

pub use counts::{EndCounts, counts_line};
pub use ends::{Packet, whereabouts_line};
pub use said::said_line;
