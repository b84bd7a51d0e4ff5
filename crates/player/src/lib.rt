//! Plays a scenario, and lets a listener hear each record as soon as it is made.
//!
//! # What the layer above may rely on
//!
//! - A listener says what it writes of a history (`specs/Account.antt`), and `play` writes exactly that of the one legal
//!   history of the scenario in which these NATs are behind others, `play_flat` of the one in which none is. Where it can't
//!   go on it answers why, and a front of that was written: where the next record would make too long a wire, or may want
//!   memory, whole lines (`specs/Endings.antt`).
//! - Each line begins a piece of its own, by `sink_lines`.
//! - `ReportWriter` writes the report, `TotalsWriter` the totals alone, `CaptureWriter` the capture of the wire: a head,
//!   and a record for each entry as soon as it was made. It keeps nothing of it but how many entries there were, and room
//!   for one record.
//! - With each record a listener is given its event, and shown the world as the record left it; at the end, as the last one did.
//!   It may answer that it can't hear on: the sink failed, or memory is wanting, where it says that this may be.
//!
//! # What it does not know
//!
//! What a node does, how a text is read, how a record's line looks, what is proved of every history; the words of a command
//! line and its statuses.
//!
//! # Parts
//!
//! | module | holds | stated in |
//! |---|---|---|
//! | `listener`, `hear_fault` | `Listener`, and why it can't hear | `specs/Account.antt`, `specs/Hearing.antt` |
//! | `player` | `play`, `play_flat` | `specs/Endings.antt` |
//! | `report_writer`, `totals_writer`, `capture_writer` | three listeners | `specs/Accounts.antt` |
//! | `entry_record` | the record of an entry in a capture | `specs/Capture.antt` |
//! | `laws` | a history's capture is one; the numbers | `specs/CaptureLaws.antt`, `specs/Numbers.antt` |
#![tactic(auto)]

mod capture_writer;
mod entry_record;
mod hear_fault;
mod laws;
mod listener;
mod player;
mod report_writer;
mod totals_writer;

pub use capture_writer::CaptureWriter;
pub use entry_record::{MILLI_MICROS, SECOND_MS};
pub use hear_fault::HearFault;
pub use laws::{moment_numbers, pieces_are_a_capture};
pub use listener::Listener;
pub use player::{PlayFault, play, play_flat};
pub use report_writer::{ReportWriter, WIRE_FULL_LINE};
pub use totals_writer::TotalsWriter;
