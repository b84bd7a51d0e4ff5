//! What is proved of every history of a laboratory, whichever NATs are behind others: each theorem a field of one record, so
//! that a run says all of them in one clause.
//!
//! # What the layer above may rely on
//!
//! - Every history that grows, and the history of every scenario as far as it was played, keeps all of it at each of its
//!   records (`specs/Kept.antt`).
//! - A packet with a Teredo source that a client's host is handed came from the endpoint that the source embeds: a named
//!   event put it there, or a client's host had handed it in while that source was its address. In a history that is honest
//!   for a client each address that it gets embeds an endpoint that leads to it (`specs/Kept.antt`; the words are those of
//!   `theory_origins`).
//! - Deliveries alone end: at most nine follow for each undelivered entry and each packet that waits (`theory_storms`), and no more than
//!   the weights of entries say (`weights`).
//!
//! Where the NATs that are behind others are so by the rules of a chain (the words are those of `theory_ways`):
//!
//! - In a history that is honest for it the verdict of each client that nothing disturbs along its way is right, and its
//!   address stays.
//! - What such a client asks tells it of the NATs of its way, where the answer is delivered at once (`theory_answers`).
//! - Two clients that are settled along their ways have different endpoints in their addresses; and in an honest history no
//!   client's host hears a client behind the same outermost NAT.
//! - The first packet between two clients that are settled along their ways, whose outermost NATs differ, arrives in each
//!   schedule that delivers all that it draws, and its deliveries have the fates of one of its courses (`theory_first_packets`).
//! - So do the first packet of a native host to such a client and the first packet of the client's host to it, where the two and the
//!   host's relay are new to each other (`theory_first_natives`).
//!
//! And where no NAT is behind another one:
//!
//! - In a history that is honest for it each address that a client gets embeds its NAT's address, and a port that the NAT then
//!   holds for it, and its verdict on its NAT is right where nothing disturbs it (the words are those of `theory_verdicts`).
//!
//! # What it does not know
//!
//! How a history is played; whether anything is delivered.
//!
//! # Beside the clauses
//!
//! Each theorem on histories is a field of one record, so that `run` says all of them in one clause, and a further one
//! changes no clause. They are those of `theory_origins`, `theory_ways`, `theory_answers`, `theory_verdicts`, `theory_storms`, `theory_first_packets` and
//! `theory_first_natives`. What is said along ways has as its premise that the chain keeps its rules, which each chain does
//! that `lab` or `nested` plays (`flat_is_chained`, `asked_is_chained` of `theory_ways`). Of clients behind one NAT each
//! `held` and `verdicts` say once more what they are.
//!
//! For the premise `worked_facts` has two histories without it in which a client gets an address at a port that its NAT
//! doesn't hold for it: a stranger answers in the server's name, and one repeats the server's answer to another port.
#![tactic(auto)]

mod laws;

pub use laws::{kept, kept_in_scenarios};
