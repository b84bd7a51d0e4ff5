//! The rules of a relay: what it does with a packet of the IPv6 side, with a datagram and at a tick, by its whole
//! journal (RFC 4380, section 5.4).
//!
//! # What the layer above may rely on
//!
//! - `specs/Journals.antt` has the entry that each input makes after a journal, and when something is due.
//! - The journal is read once, to what is known of one address (`specs/Standing.antt`). The tables look at nothing else.
//! - Where a packet goes out or waits, and where a datagram is a listed client's, the conditions of its line held
//!   (`specs/Warrants.antt`).
//! - In every journal what waits is from outside Teredo, a client is trusted at its embedded endpoint alone, and an address
//!   with the cone bit has no tries and nothing waiting (`specs/Laws.antt`). Each datagram is of one of two kinds
//!   (`specs/Sendings.antt`).
//! - Each entry that touches a peer finds room for it, so a journal never lists more than 256.
//!
//! # What it does not know
//!
//! How a relay keeps what it knows. No code stands here but the laws.
//!
//! # Parts
//!
//! | what is said | in |
//! |---|---|
//! | what each fate means for the entry's peer | `specs/Bearings.antt` |
//! | what a table asks of a journal | `specs/Standing.antt` |
//! | packets of the IPv6 side, datagrams, ticks | `specs/Transmission.antt`, `Reception.antt`, `Ticks.antt` |
//! | the entries of a journal | `specs/Journals.antt` |
//! | what was seen where a fate is given | `specs/Warrants.antt` |
//! | what holds of every journal | `specs/Laws.antt` |
//! | what is sent | `specs/Sendings.antt` |
//! | that what is sent are bytes, of packets from outside Teredo | `specs/ForeignSends.antt` |
#![tactic(auto)]

mod laws;

pub use laws::{
    cone_is_quiet, each_send, each_send_is_foreign, fate_of_reception, fate_of_transmission,
    holds_nothing, journal_has_few, journal_is_tried, reception_is_warranted, tick_is_warranted,
    transmission_is_warranted, tries_touch, trusted_is_embedded, waiting_is_foreign,
};
