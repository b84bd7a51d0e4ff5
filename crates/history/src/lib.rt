//! What came of a scenario's events: its records, and the wire.
//!
//! # What the layer above may rely on
//!
//! `specs/Full.antt` says what a full record is, and what the wire of a history holds: everything that was
//! sent, in order, numbered from 0. A `Record` is what a report needs of a full record.
//!
//! # What it does not know
//!
//! How an event is written, what a node does with an input, and which record comes next.
//!
//! # Parts
//!
//! | module | holds | stated in |
//! |---|---|---|
//! | `act` | `Act` | `specs/Telling.antt` |
//! | `late_list` | `Lates` | `specs/Records.antt` |
//! | `mark`, `mark_list` | `Mark`, `Loss`, `Marks` | `specs/Records.antt` |
//! | `turn` | `Turn`, `Stop` | |
//! | `laws` | what holds of the numbers | `specs/Numbers.antt` |
//! | `records` | `Record`, the full record behind it, and what it tells the totals | `specs/Full.antt`, `Records.antt`, `Telling.antt` |
//!
//! # Beside the clauses
//!
//! The definitions of a full record and of the wire stand in `Full.antt`; what a record takes from a full one in
//! `Records.antt`, and what it tells the totals in `Telling.antt`.
#![tactic(auto)]

mod act;
mod late_list;
mod laws;
mod mark;
mod mark_list;
mod records;
mod turn;

pub use act::Act;
pub use late_list::{LATES_MAX, Lates};
pub use laws::record_numbers;
pub use mark::{Loss, Mark};
pub use mark_list::{MARKS_MAX, Marks};
pub use records::Record;
pub use turn::{Stop, Turn};
