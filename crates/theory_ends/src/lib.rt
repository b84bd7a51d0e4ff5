//! What the end of a packet tells: what came before, and what can come yet, in every history.
//!
//! # What the layer above may rely on
//!
//! - Where a packet is lost, nothing carries it that a node keeps or that was never delivered (`specs/Gone.antt`). So
//!   it stays lost, and nothing is said of it, until an entry that carries it is delivered again
//!   (`specs/LostStays.antt`).
//! - Where it arrived, the record of that number was the first to say so, and else none did (`specs/FirstArrival.antt`).
//! - Where it is lost, the record of that number was the last to say something of it (`specs/LastSaying.antt`).
//!
//! # What it does not know
//!
//! How an end is found or written; which bytes a packet has. Definitions of loads stand in `loads`.
//!
//! # Parts
//!
//! | what is said | in |
//! |---|---|
//! | when nothing carries a load | `specs/Gone.antt` |
//! | what was lost stays lost | `specs/LostStays.antt` |
//! | which record an arrival names | `specs/FirstArrival.antt` |
//! | which record a loss names | `specs/LastSaying.antt` |
//!
//! # Beside the clauses
//!
//! In plain words: the word `lost` is no guess. A node that no longer lists a peer has forgotten what waited for it,
//! and the next touch of the peer begins with nothing: so no release brings it back. Whoever is told that a packet is
//! lost needs to expect nothing more of it, but for a second delivery of an entry that carried it.
#![tactic(auto)]

mod laws;

pub use laws::{arrived_is_first, lost_is_last, lost_stays_lost, others_never_arrive};
