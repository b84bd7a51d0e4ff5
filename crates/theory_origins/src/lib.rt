//! Whence packets come that clients' hosts and native hosts are handed, and what clients' addresses embed, in every history.
//!
//! # What the layer above may rely on
//!
//! - A packet that a client's host is handed came in a datagram that the client's NATs let in; with a Teredo source, from
//!   the endpoint that this embeds, whatever strangers do (`specs/Handed.antt`).
//! - Such a packet was put onto the wire there by a named event, or a client's host had handed it in,
//!   byte for byte, while the client's address was that source (`specs/Origin.antt`).
//! - Each packet that a client's host is handed, at once or late, was brought by a datagram (`specs/Outside.antt`).
//! - Such a packet from outside Teredo was put onto the wire by a named event, or came from a relay, for the native host
//!   that sent it (`specs/FromOutside.antt`).
//! - A packet with a Teredo source that comes to a native host was passed on by a server or a relay, from where the source
//!   says; a client's host had handed it in, the client made it of itself, or a named event put it there (`specs/AtNatives.antt`).
//! - In an honest scenario each address that a client gets embeds an endpoint that leads to the client (`specs/Live.antt`).
//! - A datagram from a server's endpoint is the server's own, where no named event speaks for it (`specs/Voices.antt`).
//! - In an honest scenario a datagram from a node's address is the node's, or of a client behind it (`specs/Sources.antt`),
//!   and what a server says of its origin is where it goes (`specs/Senders.antt`).
//!
//! # What it does not know
//!
//! Whether anything arrives; who has an address now. A port may be given again, so others may have had the same address
//! before or after.
//!
//! # Parts
//!
//! | what is said | in |
//! |---|---|
//! | who sent from a node's address | `specs/Sources.antt` |
//! | who speaks for a server | `specs/Voices.antt` |
//! | what servers and relays send | `specs/Senders.antt` |
//! | what brought a packet to a host | `specs/Handed.antt` |
//! | whence it came | `specs/Origin.antt` |
//! | what brought one that is handed late | `specs/Outside.antt` |
//! | who sent one from outside Teredo | `specs/FromOutside.antt` |
//! | whence packets come at native hosts | `specs/AtNatives.antt` |
//! | what an address embeds | `specs/Live.antt` |
//! | all of it, at each record | `specs/Throughout.antt` |
//!
//! # Beside the clauses
//!
//! In plain words: a packet with a Teredo source that a client's host is handed came from the endpoint that the source
//! embeds. Either a named event of the scenario put it onto the wire there, or a client's host had handed it in, byte
//! for byte, while that source was the client's address. An address that a client gets embeds its NAT's address and a
//! port that the NAT then holds for it, as long as nobody speaks for the client's server. That says nothing of who has
//! the address later, nor that nobody else had it: a port may be given again. A packet with another source came from a
//! relay, for the very host that sent it, or a named event put it there; that says nothing of who this is where
//! somebody speaks for relays.
#![tactic(auto)]

mod laws;

pub use laws::{
    comes_from_clients, goes_elsewhere, has_origin, has_outside_origin, histories_have_origins,
    honest_for_scenarios, honest_is_for_each, honest_scenarios, is_brought, is_brought_by, is_held,
    is_live, late_is_foreign, own_sources, own_voices, scenarios_have_origins, tells_where_to,
    was_passed_on,
};
