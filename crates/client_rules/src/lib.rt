//! The rules of a client: what it does with a datagram, with a packet of its host and at a tick, by its whole journal
//! (RFC 4380, sections 5.2.3 to 5.2.6).
//!
//! # What the layer above may rely on
//!
//! - `specs/Journals.antt` has the entry that each input makes after a journal, and when something is due.
//! - The journal is read once, to what is known of one address (`specs/Standing.antt`). The tables look at nothing else.
//! - One entry more is one mention more of its peer, and the fate of a step is that of a line of its table: `laws`.
//! - Where a datagram or a packet isn't dropped, the conditions of its line held (`specs/Warrants.antt`).
//! - In every journal a client has an address exactly while it is qualified, what waits is from that address, and another
//!   client is trusted at its embedded endpoint alone (`specs/Epochs.antt`). Each datagram is of one of four kinds
//!   (`specs/Sendings.antt`), and what is handed to the host came from a peer itself (`specs/Handed.antt`).
//! - Each entry that touches a peer finds room for it, so a journal never lists more than 256.
//!
//! # What it does not know
//!
//! How a client keeps what it knows. No code stands here but the laws.
//!
//! # Parts
//!
//! | what is said | in |
//! |---|---|
//! | what each fate means for the entry's peer | `specs/Bearings.antt` |
//! | what a table asks of a journal | `specs/Standing.antt` |
//! | a try at a peer | `specs/Tries.antt` |
//! | datagrams, packets of the host, ticks | `specs/Reception.antt`, `Transmission.antt`, `Ticks.antt` |
//! | the entries of a journal | `specs/Journals.antt` |
//! | what was seen where a fate is given | `specs/Warrants.antt` |
//! | what holds of the tables, and of mentions | `specs/Laws.antt` |
//! | what holds of address, waiting packets and trust | `specs/Epochs.antt` |
//! | what sets a client's address | `specs/Told.antt` |
//! | what is sent, and what is handed to the host | `specs/Sendings.antt`, `Handed.antt` |
//! | which datagrams take memory, and when | `specs/TakenPlaces.antt` |
//! | that what is sent are bytes, and not too many | `specs/MadeSends.antt`, `ShortSends.antt` |
//! | that it goes to endpoints | `specs/Destinations.antt` |
#![tactic(auto)]

mod laws;
mod limits;

pub use laws::{
    each_address_is_told, each_handed, each_late, each_late_is_foreign, each_send,
    each_send_goes_to_endpoint, each_send_is_bytes, each_send_is_short, each_standing_is_made,
    fate_of_reception, fate_of_transmission, journal_has_few, journal_is_tried, next_mentions,
    none_queued, numbers_of_tests, qualified_has_address, qualified_stays, queued_is_own,
    reception_is_warranted, tick_is_warranted, transmission_is_warranted, tries_touch,
    trusted_is_embedded, waiting_is_own, waiting_was_handed_in, wants_only_qualified,
};
pub use limits::{TEST_ID, TEST_SEQ};
