//! Weights: what can follow from an entry of the wire, and from a packet that waits, where entries are only delivered.
//!
//! # What the layer above may rely on
//!
//! - Each entry has a weight: how many deliveries can follow from it, itself counted. It looks at the entry and the topology
//!   alone, never at a node's tables (`specs/Weights.antt`).
//! - What can follow in all is the weights of what is undelivered and of the packets that wait (`specs/Burden.antt`).
//! - An entry is eased where the reply that comes of it can't have to wait at a relay: its relay trusts the client, or will
//!   by then. It weighs less by a number, at most 3, the bubble and what this draws (`specs/Trust.antt`, `Eased.antt`).
//! - What is left of an event: of a `settle` all that can follow, of an advance the time to what is due (`specs/Left.antt`).
//!
//! # What it does not know
//!
//! Whether any of it holds: definitions alone stand here, so that nodes which keep count needn't wait for the proofs. What is
//! proved of them stands in `theory_storms`.
//!
//! # Parts
//!
//! | what is said | in |
//! |---|---|
//! | what can follow from an entry | `specs/Weights.antt` |
//! | from all that is undelivered or waits | `specs/Burden.antt` |
//! | whom a relay trusts, and which relay a host has | `specs/Trust.antt` |
//! | which entries and packets are eased, and what they weigh | `specs/Eased.antt` |
//! | what is left of an event that goes on | `specs/Left.antt` |
//!
//! # Beside the clauses
//!
//! In plain words: what `theory_storms` speaks of. Each entry of the wire has a weight, which is how many deliveries can
//! follow from it, itself counted, and so has each packet that waits; only by the entry and the topology, or eased, by
//! whom relays trust. Definitions alone stand here, in `Weights.antt`, `Burden.antt`, `Trust.antt`, `Eased.antt` and
//! `Left.antt`, so no call has a clause: what is proved of them stands below.
#![tactic(auto)]
