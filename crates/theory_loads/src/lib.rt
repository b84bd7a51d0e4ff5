//! What carries a packet of a host has its bytes, and where it arrives a host gets them, in every history.
//!
//! # What the layer above may rely on
//!
//! - An entry of the wire, a packet that waits and one that is held have the bytes of the packet that they carry, as its
//!   host handed it in, or those of a native host's reply to it (`specs/Carried.antt`).
//! - By a record that says that it arrives, these bytes are handed to a client's host, or come to a native host
//!   (`specs/Arrivals.antt`).
//!
//! # What it does not know
//!
//! Whether anything arrives; whether what carries nothing has the bytes of a packet too.
//!
//! # Parts
//!
//! | what is said | in |
//! |---|---|
//! | the bytes of a packet, and what has them | `specs/Carried.antt` |
//! | what a host gets | `specs/Arrivals.antt` |
#![tactic(auto)]

mod laws;

pub use laws::{arrivals_are_handed, carries_packets};
