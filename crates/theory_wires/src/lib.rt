//! What is proved of the capture that is written of a wire, and of an audit of it.
//!
//! Standards: RFC 4380, section 5.3, for what a server answers; RFC 791 and RFC 768 for the datagrams.
//!
//! # What the layer above may rely on
//!
//! - The capture of a history is read back: one record for each entry of the wire, in order. A datagram's is read as this
//!   datagram, one of the IPv6 side as none. It has a head and at most so many bytes for each entry (`specs/ReadsBack.antt`).
//! - Where nobody speaks for a server, and no entry was delivered to it twice, an audit of the capture for this server is
//!   clean, with the true counts (`specs/CleanWire.antt`).
//! - Both are so of each scenario's history, as far as it was played (`specs/HoldsWire.antt`): a run that writes the
//!   capture says so of it.
//!
//! # What it does not know
//!
//! How a capture is written and read, and how an audit is made: no code stands here but the laws. Captures of other
//! networks.
//!
//! # Parts
//!
//! | what is said | in |
//! |---|---|
//! | what the capture of a history holds | `specs/ReadsBack.antt` |
//! | what an audit finds in it | `specs/CleanWire.antt` |
//! | both, of a scenario | `specs/HoldsWire.antt` |
//!
//! # Beside the clauses
//!
//! In plain words: what `wire` writes of a history is read back, entry by entry; and an audit of it finds nothing of a
//! server that nobody speaks for.
#![tactic(auto)]

mod laws;

pub use laws::{scenarios_hold_wires, wire_is_clean, wire_reads_back};
