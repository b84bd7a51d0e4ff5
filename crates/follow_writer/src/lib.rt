//! The writer of where packets went: a listener that tells, record by record, which packet each datagram carries.
//!
//! # What the layer above may rely on
//!
//! - Of a record it writes a line on each load that it concerns, and in the end one on where each packet is, and how many have each
//!   end. They are those of `loads` (`specs/FollowAccount.antt`).
//! - Where a record wants memory that isn't there, it has written nothing of it.
//!
//! # What it does not know
//!
//! How a world is played and what it keeps, what a record does with loads, how a line looks; the words of a command line and its
//! statuses.
//!
//! # Parts
//!
//! | module | holds | stated in |
//! |---|---|---|
//! | `follow_writer` | `FollowWriter` | `specs/FollowAccount.antt`, `specs/Keeps.antt` |
//! | `told` | the peer of a record, and where its datagram came from | `specs/Told.antt` |
#![tactic(auto)]

mod follow_writer;
mod told;

pub use follow_writer::FollowWriter;
