//! Where each packet of a history is in the end, as it is kept while records are heard, and the lines on it.
//!
//! # What the layer above may rely on
//!
//! - An `EndsTable` tells of a history (`specs/Table.antt`): for each packet that was handed in, and for the reply to it,
//!   which record said first that it arrives, and which was the last that said anything of it. `hear` takes what the next
//!   record says.
//! - `write_ends` writes a line on each packet, in the order in which they were handed in, and then how many have each end:
//!   those of `loads/FollowLines.antt`. It takes no memory.
//!
//! # What it does not know
//!
//! What a record says of loads, where a load waits or is held, what the wire carries: it is told the first, and asks a
//! keeper for the others, and a world for what was delivered.
//!
//! # Parts
//!
//! | module | holds | stated in |
//! |---|---|---|
//! | `load_row`, `packet_row` | what is kept of a load, and of a packet with its reply | `specs/Changes.antt` |
//! | `ends_table`, `heard` | `EndsTable`, as records are heard | `specs/Table.antt` |
//! | `at_end` | the lines at the end | `specs/AtEnd.antt`, `loads/FollowLines.antt` |
//!
//! # Beside the clauses
//!
//! Seen by reading: a record costs what it says, and the end costs the entries of the wire once, and for each load that
//! hasn't arrived what the keeper looks through. Nothing of an entry is kept while records are heard.
#![tactic(auto)]

mod at_end;
mod ends_table;
mod heard;
mod load_row;
mod packet_row;

pub use ends_table::EndsTable;
