//! Clients behind several NATs, one behind the other: their ways, what they make of their NATs, and their addresses.
//!
//! # What the layer above may rely on
//!
//! - The way of a client is its NATs from the one next to it to the outermost one (`specs/Ways.antt`). What is let in to a client
//!   comes in past each NAT of its way, and what does is let in (`specs/Inwards.antt`).
//! - In a history that is honest for it the verdict of each client that nothing disturbs along its way is right, and its address
//!   stays. So are those of clients without the cone phase whose NATs were kept open (`specs/RightAlong.antt`, `Addresses.antt`).
//! - What such a client sent lets in who was asked, past each NAT of its way, for as long as the client does nothing more; and its
//!   server's other address past cone NATs alone, where it asks as a cone (`specs/Replies.antt`).
//! - Two clients that are settled along their ways have different addresses; a client hears nobody whose outermost NAT is its own.
//! - For one NAT to be settled along the way is to be settled.
//!
//! # What it does not know
//!
//! Whether a client gets a verdict at all, and which question brings which; how a chain is asked for; whether first packets
//! arrive along ways.
//!
//! # Parts
//!
//! | what is said | in |
//! |---|---|
//! | ways, and chains that keep the rules | `specs/Ways.antt` |
//! | the way in | `specs/Inwards.antt` |
//! | settled, undisturbed and kept open along a way | `specs/SettledAlong.antt`, `UndisturbedAlong.antt` |
//! | what is let in after a datagram | `specs/Replies.antt` |
//! | which verdicts are right | `specs/RightAlong.antt` |
//! | addresses; neighbours | `specs/Addresses.antt`, `Neighbours.antt` |
//! | all of it, at each record | `specs/Throughout.antt` |
//!
//! # Beside the clauses
//!
//! In plain words: the way of a client is its NATs, from the one next to it to the outermost one. What a client makes
//! of its way is so, as long as nothing disturbs it there. Where some NAT of the way is symmetric it has no address.
//! Where it has an address, what its server sends to the endpoint in it is let in to the client past all NATs, and the
//! cone bit is there only where each of them is cone. Where none is symmetric it never holds that one is. Undisturbed
//! is asked of each NAT: none was restarted; the next one knew nothing of the client at its start and didn't forget it;
//! at each, from the client's first datagram on, its latest datagram to its server is younger than that NAT's idle
//! time; and to each further NAT its first datagram came from an endpoint of which this knew nothing. A carrier's NAT
//! that still lets Q in from before the client's restart is why: the client believes that all are cone. What it doesn't
//! say: that a client gets a verdict at all; and of first packets `theory_first_packets` speaks.
//!
//! Most of it needs a chain that keeps its rules: its pairs are NATs, the inner one first, each is behind one other at
//! most, no more than three are on a way, and no client directly behind a NAT has the address of a NAT directly behind
//! it (`td_chain/ChainRules.antt`).
//!
//! The claims of `theory_verdicts` stand beside these, for clients behind one NAT. Their word for a NAT that is kept open is
//! the wider one: it takes a datagram from before the client's start, too, and this one asks for one since then.
#![tactic(auto)]

mod laws;

pub use laws::{
    addresses_differ, addresses_stay_along, asked_is_chained, enters_by_its_way, flat_is_chained,
    histories_hold_along_ways, is_let_in, neighbours_are_unheard, replies_are_let_in,
    settled_behind_one, settled_is_along, verdicts_are_right_along,
};
