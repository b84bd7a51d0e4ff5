//! The audit of a capture: whether what a Teredo server sent was licensed by what came to it before.
//!
//! Standard: RFC 4380, sections 5.3.1 and 5.3.2: a server sends only what a datagram to it draws, and one output at most
//! for each. Our choice: what a datagram draws, the table of `server_core` says, with the policy for the Internet.
//!
//! # What the layer above may rely on
//!
//! - `audit` has a verdict exactly on captures, of which it tells whether each datagram from the server is licensed: the
//!   places before it whose output it is are at least as many as those up to it that hold it.
//! - Where each one is, it tells how many records there are, to the server, from it, and with neither; else the least
//!   record that isn't licensed.
//! - What is no capture is refused by its first fault.
//! - It keeps the datagrams that are still licensed, and how often; none that was sent as often as it may.
//!
//! # What it does not know
//!
//! Files, and when a datagram went by: the order of the records decides. Settings of IPv4 other than addresses, and
//! checksums, aren't looked at. Peers of the server: a lost datagram and a forged one look the same.
//!
//! # Parts
//!
//! | module | holds | stated in |
//! |---|---|---|
//! | `auditor` | `audit` | `specs/Verdicts.antt` |
//! | `verdict` | `Verdict` | `specs/Verdicts.antt`, `Licences.antt`, `Datagrams.antt` |
//! | `fault` | `AuditFault` | `specs/Verdicts.antt` |
//! | `reply` | what a server of a capture answers | `specs/Replies.antt`, `Licences.antt` |
//! | `judge` | what is known after some records | `specs/Judging.antt` |
//! | `key` | datagrams as keys of a map | `specs/Keys.antt` |
//! | `licences` | how often datagrams may still come | `specs/Left.antt` |
//! | `counts` | how many records of which kind | `specs/Counting.antt` |
//!
//! # Beside the clauses
//!
//! Seen by reading: that a datagram whose licences are used up isn't kept.
#![tactic(auto)]

mod auditor;
mod counts;
mod fault;
mod judge;
mod key;
mod licences;
mod reply;
mod verdict;

pub use auditor::audit;
pub use fault::AuditFault;
pub use key::key_of;
pub use reply::{Reply, endpoint, is_audited, reply_to, side_with};
pub use verdict::Verdict;
