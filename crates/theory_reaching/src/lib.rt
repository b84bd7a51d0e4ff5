//! Who reaches whom: what becomes of the next packet from one host to another, decided by what a history left behind
//! (RFC 4380, sections 5.2 to 5.4). A word for each two hosts: within so many deliveries, why not, or that nothing is said.
//!
//! # What the layer above may rely on
//!
//! - The words, their texts, and what a word says: that the packet comes, that it doesn't, or nothing (`specs/Words.antt`).
//! - The word on two hosts after a history (`specs/Reach.antt`): that of the first line whose condition holds, in one of
//!   three tables, from a client to another one (`specs/BetweenClients.antt`), to a native host (`specs/ToNative.antt`) and from
//!   one (`specs/FromNative.antt`). The conditions are those of `specs/Conditions.antt`, `specs/ThroughRelay.antt` and
//!   `specs/Speaks.antt`.
//! - The lines of all pairs, with their sums (`specs/ReachLines.antt`).
//! - What a word promises of each packet, whatever the order of deliveries (`specs/Promises.antt`); of `off`, `away` and `barred` more
//!   than that (`specs/Silent.antt`, `specs/Away.antt`). Each word keeps it: `words_are_kept` says it of one laboratory and one history
//!   (`specs/Kept.antt`), the other laws of `laws` of a word each.
//!
//! # What it does not know
//!
//! How a history is played, and whether anything is delivered. No word is known for two native hosts, who have no NAT between
//! them, nor for one host and itself.
//!
//! # Parts
//!
//! | module | holds | stated in |
//! |---|---|---|
//! | `word` | `Reach` and `ReachClass` | `specs/Words.antt` |
//! | `clients_table` | what is asked of two clients, and the word by it | `specs/BetweenClients.antt` |
//! | `relay_table` | the same of a client, a native host and its relay | `specs/ThroughRelay.antt`, `ToNative.antt`, `FromNative.antt` |
//! | `laws`, `unreached` | that each word keeps its promise; those of `off`, `away` and `one_nat`, which want little, apart | `specs/Promises.antt`, `Silent.antt`, `Away.antt`, `Kept.antt` |
//!
//! The page on all of it: `docs/REACH.md`.
//!
//! # Beside the clauses
//!
//! In plain words: after any history each pair of hosts, of which one at least is a client, have a word that says what
//! becomes of the next packet from the one to the other (`docs/REACH.md`). Each word promises something of every fresh
//! schedule after that packet. Each is proved.
//!
//! `crates/worked_facts/proofs/ReachFacts.antt` computes all words of a laboratory with four clients and a native host,
//! one NAT behind another one, before and after a restart of the relay; and two words of the same laboratory without
//! that chain. In others a word, its packet and a complete fresh schedule are computed together. In
//! `crates/worked_facts/proofs/WithinFacts.antt` the packet comes by the second delivery, to a native host and from
//! one, also where the relay forgot a client with the cone bit, and by the fifth where it must ask. In
//! `crates/worked_facts/proofs/ShutFacts.antt` none brings it: it is `stale` of a host that is trusted elsewhere, and
//! `barred` of a client on one that may not try yet; and in `crates/worked_facts/proofs/MovedFacts.antt`, where it is
//! `moved` of a client that got another port at its outer NAT than its address says. In
//! `crates/worked_facts/proofs/OtherwiseFacts.antt` it comes though the word is shut: the test that its record drew, by
//! the second delivery past `barred`, and a packet that the client holds, by the sixth past `full`.
#![tactic(auto)]

mod clients_table;
mod laws;
mod relay_table;
mod unreached;
mod word;

pub use clients_table::TwoClients;
pub use laws::{
    barred_client_is_kept, barred_from_native_is_kept, barred_to_native_is_kept, client_kept_back,
    full_client_is_kept, full_from_native_is_kept, full_to_native_is_kept, moved_is_kept,
    moved_straight_is_kept, past_waiting_is_kept, self_is_kept, stale_client_is_kept,
    stale_from_native_is_kept, stale_to_native_is_kept, within_five_is_kept, within_four_is_kept,
    within_nine_is_kept, within_one_is_kept, within_six_is_kept, within_two_is_kept,
    words_are_kept,
};
pub use relay_table::Relayed;
pub use unreached::{
    away_brings_nothing, away_is_kept, barred_sender_is_silent, off_is_kept, off_makes_nothing,
    one_nat_is_kept,
};
pub use word::{Reach, ReachClass};
