//! Settled clients: what a client and its NAT are after a history, where no NAT is behind another one.
//!
//! # What the layer above may rely on
//!
//! - What a client makes of its NAT, and what the NAT is, read off a history (`specs/Clients.antt`).
//! - A client is settled where it has an address, and packets that its server sends there reach it (`specs/Settled.antt`).
//!   What makes a client settled, and what that is good for, is said in crates of their own.
//! - A client's address is made of its server's address and an origin that it was told (`specs/OwnAddress.antt`).
//! - The server and the NAT that a client's row names are nodes, with their addresses (`specs/ItsNodes.antt`).
//!
//! # What it does not know
//!
//! Which histories make a client settled; what two settled clients do; NATs behind NATs.
//!
//! # Beside the clauses
//!
//! What these words mean stands in `docs/DEFINITIONS.md`; what makes a client settled, and what that is good for, is
//! claimed below.
#![tactic(auto)]

mod laws;

pub use laws::{address_is_own, client_is_there};
