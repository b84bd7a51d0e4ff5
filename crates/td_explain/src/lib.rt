//! What the server's table makes of a capture: which rule decided each datagram to a Teredo server, what it drew, and what
//! licensed each datagram from the server.
//!
//! Standard: RFC 4380, sections 5.3.1 and 5.3.2: a server sends only what a datagram to it draws, and one output at most
//! for each. Our choice: what a datagram draws, the table of `server_core` says, with the policy for the Internet; what a
//! datagram is, and which of two are the same, `td_audit`.
//!
//! # What the layer above may rely on
//!
//! - `Explainer` says of each record what it is (`specs/Said.antt`): why it holds no datagram; or the side, the source, the
//!   fate, the first fault and the output of one to the server; or what licenses one from the server, or comes near.
//! - Its counts are those of what it said (`specs/Tallies.antt`). What is refused is refused by its first fault, behind the
//!   records before it.
//! - What it says agrees with `td_audit`: nothing is unlicensed exactly where the audit is clean, and else the first that is
//!   said to be has its number.
//! - The calls of `lines` make the line of each (`specs/Lines.antt`), in a page that is used again.
//! - As long as each datagram from the server was licensed, it keeps what the audit keeps, which is each that may come yet,
//!   with the first and the last of its places that wait in place of their number; besides four bytes a place, for the one
//!   that waits behind it, up to the last place that has one; and a byte a record, for whether its output waits. At the first
//!   one that isn't licensed it walks the records before once more. From then on it keeps each datagram that came or is an
//!   output, with its places, and one place for each two ends and length.
//!
//! # What it does not know
//!
//! Files, where the lines go, and when a datagram went by: the order of the records decides. Settings of IPv4 other than
//! addresses, and checksums, aren't looked at.
//!
//! # Parts
//!
//! | module | holds | stated in |
//! |---|---|---|
//! | `said` | `Said`, what is said of a record | `specs/Said.antt` |
//! | `question` | what the table makes of a datagram to the server | `specs/Questions.antt` |
//! | `answered` | what licenses a datagram from the server | `specs/Licensing.antt` |
//! | `explainer` | `Explainer` | `specs/Explained.antt` |
//! | `teller` | what is said of one record after the other | `specs/Telling.antt` |
//! | `known` | what is known of datagrams after some records: what waits, or the past | `specs/Telling.antt` |
//! | `waits` | which places wait while each datagram was licensed | `specs/Waits.antt`, over `specs/Outputs.antt` |
//! | `links` | which place waits behind another one | `specs/Waits.antt` |
//! | `past` | all that came and all that was drawn | `specs/Telling.antt` |
//! | `ledger` | which datagrams came, and which are outputs | `specs/Known.antt`, over `specs/Outputs.antt` |
//! | `places` | the places whose output a datagram is | `specs/Known.antt` |
//! | `likes` | the latest output between two ends that has a length | `specs/Known.antt` |
//! | `earlier` | the records before the one at hand | `specs/Earlier.antt` |
//! | `difference` | where two texts differ first | `specs/Difference.antt` |
//! | `tally` | the counts | `specs/Tallies.antt` |
//! | `lines` | the lines of what is said | `specs/Lines.antt` |
//! | `laws` | what holds of the records of every capture | `specs/Laws.antt` |
//!
//! # Beside the clauses
//!
//! Seen by reading: what is kept. While each datagram from the server was licensed, it is each that may come yet, with
//! 8 bytes, as in an audit; 4 bytes for each place up to the last behind which another waits with the same output; a
//! byte for each record. From the first one on that isn't, it is each datagram that came from the server or is an
//! output, once: with its place, 4 bytes, where it is the output of one and has not come; else with 24 bytes, and where
//! its places are several a list of them, 4 bytes each. Besides, then, a place and a slice of the file for each pair of
//! ends and each length. Tested by `.ci/memory`: on two captures in which all is licensed it takes at most eight bytes
//! a record more than an audit.
//!
//! `crates/worked_facts/proofs/ExplainFacts.antt` computes the lines of two small captures: a solicitation with its
//! answer, which is licensed, and the same with an answer that has another Retrans Timer, which is unlicensed and
//! differs at byte 75.
#![tactic(auto)]

mod answered;
mod difference;
mod earlier;
mod explainer;
mod known;
mod laws;
mod ledger;
mod likes;
mod lines;
mod links;
mod past;
mod places;
mod question;
mod said;
mod tally;
mod teller;
mod waits;

pub use answered::{Answered, Licensing};
pub use explainer::Explainer;
pub use laws::{each_agrees_with_audit, lines_grow};
pub use lines::{
    PART_ROOM, put_answered_line, put_asked_line, put_other_line, put_skipped_line, put_tally_line,
};
pub use question::{Drawn, Question, Reason};
pub use said::Said;
pub use tally::Tally;
