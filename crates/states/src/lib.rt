//! States: what each NAT, client and relay keeps after a history.
//!
//! # What the layer above may rely on
//!
//! - What a NAT keeps is its live ports, and whom it lets in at each of them; what a client and a relay keep is when they
//!   are due and what they know of each listed peer. All of it is read off the history (`specs/Kept.antt`).
//! - What a record concerned is its node and each NAT that let something of it out (`specs/Concerned.antt`).
//! - Whether a record concerned a peer is told by its fate, and the peer is the latest one of its node's journal
//!   (`specs/PeerFates.antt`).
//! - Where the NAT of a client is behind no other one, the marks of a record tell what it let out (`specs/Marked.antt`).
//! - What a NAT keeps lasts until its end, and what is told of a peer as long as it is listed, where nothing more happens to
//!   their node (`specs/Lasting.antt`).
//! - Wherever it is, what the NATs of its way let out is found again after the record, by walking the way and asking each
//!   NAT for the port that it has live (`specs/Walked.antt`).
//! - Both have lines (`specs/StateLines.antt`): of all nodes before any record and of what each record concerned, or of
//!   all nodes in the end.
//!
//! # What it does not know
//!
//! How any of it is found or written: definitions stand here, and laws of them.
//!
//! # Parts
//!
//! | what is said | in |
//! |---|---|
//! | what is kept of one thing | `specs/Facts.antt` |
//! | what a node keeps, by what happened to it | `specs/Kept.antt` |
//! | what a record concerned | `specs/Concerned.antt` |
//! | the lines | `specs/StateLines.antt` |
//! | lists in an order | `specs/Orders.antt` |
//! | what marks tell of a NAT | `specs/Marked.antt`; `laws` |
//! | what of the facts on NATs and peers lasts between records | `specs/Lasting.antt`; `laws` |
//! | what walks along a way show | `specs/Walked.antt`; `laws` |
//! | which fates are of a peer, and of which | `specs/PeerFates.antt`; `laws` |
//!
//! # Beside the clauses
//!
//! What a NAT, a client or a relay keeps after a history, one thing a line. Of a NAT that is each live port with its
//! inside endpoint, until when it lasts, and whom the NAT lets in there; of a client its phase, its address and when it
//! is due; of a client and a relay what they know of each listed peer. All of it is read off the history by the
//! definitions of `nat_kinds`, `qualify`, `client_rules` and `relay_rules`. And what a record concerned: its node, and
//! each NAT that let something of it out. The definitions are in `Facts.antt`, `Kept.antt`, `Concerned.antt` and
//! `StateLines.antt`, and no call does anything. `worked_lines` computes them on worked scenarios.
#![tactic(auto)]

mod laws;

pub use laws::{
    latest_is_concerned, nat_facts_last, passed_is_marked, passed_is_walked, peer_facts_last,
    ways_keep_ports,
};
