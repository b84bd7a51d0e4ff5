//! No storm: deliveries alone can't go on, whatever strangers send.
//!
//! # What the layer above may rely on
//!
//! - Each entry of the wire weighs 1 to 12, by the entry and the topology alone (the words are those of `weights`). What can
//!   follow in all is at most twelve times as much as there are entries and packets that wait (`specs/Loads.antt`).
//! - No more than 139,264 packets wait at once, whatever was sent (`specs/Loads.antt`).
//! - Each delivery of an entry that wasn't delivered before makes less what can follow, in every history of a topology that
//!   keeps its rules, whichever NATs are behind others: by the weights alone, and where what is eased weighs less by any number
//!   up to 3. So deliveries alone end, and so does a `settle` (`specs/Deliveries.antt`, `Follow.antt`).
//! - A client that a relay trusts stays trusted while entries are only delivered, whatever comes to the relay
//!   (`specs/Follow.antt`).
//! - No more deliveries follow than all of it weighs, eased. So at most nine follow for each entry that is undelivered and each
//!   packet that waits, where the weights alone say twelve; fewer for what waits (`specs/ByKind.antt`); and from one entry alone
//!   no more than it weighs, eased: four from a datagram to a relay (`specs/Follow.antt`).
//! - After each record that has further ones less is left of its event, and never more than `LEFT_MAX` (`specs/Falls.antt`). So
//!   each event ends.
//!
//! # What it does not know
//!
//! Ticks and packets of hosts: with these between, or where an entry is delivered again, there is no such bound. And whether so
//! many do follow.
//!
//! # Parts
//!
//! | what is said | in |
//! |---|---|
//! | how heavy it is, and what a delivery exchanges | `specs/Loads.antt` |
//! | that each delivery lightens, and that they end | `specs/Deliveries.antt` |
//! | that less is left of an event that goes on | `specs/Falls.antt` |
//! | how many deliveries follow, eased | `specs/Follow.antt` |
//! | how many by what there is | `specs/ByKind.antt` |
//! | all of it, at each record | `specs/Throughout.antt`, `NineThroughout.antt` |
//!
//! # Beside the clauses
//!
//! In plain words: whatever strangers send, deliveries alone can't go on. Count the entries that were never delivered,
//! and the packets that wait in clients and relays: at most nine deliveries for each of them follow, as long as nothing
//! but deliveries of such entries happens. So a `settle` ends. The weights of entries look only at the entry and the
//! topology, so they say twelve: they count a bubble and what it draws for each reply that comes to a relay. Where the
//! relay trusts the client by then, the reply goes out at once, and three fewer follow. Both are one argument, over how
//! much less an eased entry weighs. What it doesn't say: anything of a history with ticks, packets of hosts or
//! strangers' datagrams between, or in which an entry is delivered again; nor that so many follow.
//!
//! By the weights alone:
//!
//! Where relays trust clients:
//!
//! `crates/worked_facts/proofs/StormFacts.antt` computes what can follow in a worked scenario, 24, at most 108, and
//! what does, 17; and two histories in which more follow than that: with a tick between, and with an entry that is
//! delivered again. `crates/worked_facts/proofs/EasedFacts.antt` computes a history in which only a packet for a relay
//! is undelivered: it weighs 12, nine deliveries may follow, nine do, and then nothing is left.
//! `tests/stored/storms.txt` has an entry for each line of the weights, with what it weighs and how many deliveries
//! follow when it is played: from a packet for a relay nine, and from a datagram to a relay four.
#![tactic(auto)]

mod laws;

pub use laws::{
    burden_is_bounded, deliveries_end, delivery_exchanges, each_eases, each_is_weighed,
    each_lightens, falls, few_by_kind, few_follow, few_wait, follow_from_one, four_follow,
    histories_have_nine, histories_have_no_storm, nine_follow, nine_for_each, nine_settle,
    no_more_than_before, scenarios_have_no_storm, served_is_weighed, settle_by_kind,
    settle_delivers_new, settling_ends, trust_lasts,
};
