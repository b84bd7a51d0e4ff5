//! First packets between settled clients that don't arrive, since one of the two lists 256 others already: such
//! histories are legal, so both premises on room are needed (RFC 4380, section 5.2).
//!
//! # What the layer above may rely on
//!
//! - There is a history in which the sender is full, its packet is dropped, and all else is as the theorem on first
//!   packets wants it; and one in which the receiver is full, and hears nothing (`specs/FullTables.antt`).
//!
//! # How a client gets full
//!
//! So many records with their tables can't be computed. The history in which both clients get settled is
//! (`proofs/BothSettled.antt`). What each further packet of a host changes is proved once (`proofs/Filling.antt`): one
//! more address is listed, and nothing else changes. For the addresses name the client's own NAT as their endpoint and
//! as their server, and a NAT sends nothing back. What follows the first packet is computed again.
//!
//! # What it does not know
//!
//! Other reasons for which a packet doesn't arrive: each has a computed history in `worked_facts`.
//!
//! # Beside the clauses
//!
//! In plain words: two histories are legal in which all is as the theorem on first packets needs it, but that one of
//! the two clients lists 256 others. In one it is the sender, and in the other the receiver. All that comes of the
//! packet is delivered, and it doesn't arrive. Each client is behind a port restricted NAT of its own. How they get
//! settled is computed; then the host of one hands in a packet for each of 256 addresses, and of one such packet it is
//! proved what it changes, since so many records can't be computed.
#![tactic(auto)]

mod laws;

pub use laws::{first_with_room, full_receiver_fails, full_sender_fails};
