//! What an answer of its server tells a client of the NATs of its way.
//!
//! # What the layer above may rely on
//!
//! - What a client asks at a tick is the question of its phase, and its nonce is open (`specs/Asks.antt`). RFC 4380, sections
//!   5.2.1 and 5.2.5.
//! - A server answers each solicitation from an endpoint to which it may send, with the client's nonce and that endpoint as origin,
//!   from its other address where the client asks as a cone (`specs/Answered.antt`). RFC 4380, section 5.3.1.
//! - A client takes each answer to a question that is open, from where it expects it, with an origin that can be used; its phase
//!   gives the fate (`specs/Taken.antt`). RFC 4380, section 5.2.1.
//! - In a history that is honest for it, each answer that a client takes has the fate that its phase and the kinds of its NATs
//!   give, where nothing disturbs it along its way; and the fate tells these kinds (`specs/Tells.antt`).
//! - So does an answer to an open question that comes to the client, which it does past cone NATs alone where it asks as a cone
//!   (`specs/Heard.antt`); and so where a question is delivered, and its answer next (`specs/AtOnce.antt`).
//! - Where a tick asks, and the client does nothing till its question and the answer are delivered, the answer comes to the client
//!   and has that fate; but for one to a question in the cone phase, behind a NAT that isn't cone: this is `nat_closed`
//!   (`specs/Questions.antt`). So it is at each record of every history (`specs/Throughout.antt`).
//!
//! # What it does not know
//!
//! What becomes of an answer that comes later, after more of the client's questions; and when a tick asks.
//!
//! # Parts
//!
//! | what is said | in |
//! |---|---|
//! | which fate an answer has, and what the fate tells | `specs/Tells.antt` |
//! | a question that a client asks | `specs/Asks.antt` |
//! | a solicitation at a server | `specs/Answered.antt` |
//! | an advertisement at a client | `specs/Taken.antt` |
//! | an answer that comes to a client | `specs/Heard.antt` |
//! | a question that is answered next | `specs/AtOnce.antt` |
//! | what comes of a question, by its fate and the NATs | `specs/Questions.antt`, `Throughout.antt` |
//!
//! # Beside the clauses
//!
//! In plain words: a client asks its server, and what becomes of the answer is decided by its NATs. Where nothing
//! disturbs a client along its way, an answer that it takes while it asks as a cone makes it qualified with the cone
//! bit, and each of its NATs is cone; in phase Restricted it is the first answer; in phase Secondary it is `symmetric`
//! where some NAT of the way is symmetric, and `qualified_restricted` where none is; and a refresh tells the same
//! address. Read the other way round it is what each fate says of the NATs. And where the question is delivered and the
//! answer next, before the client does anything more, the answer comes to the client, but for one to a question in the
//! cone phase behind a NAT that isn't cone: this one is `nat_closed`. What it doesn't say: what becomes of an answer
//! that comes later, after more of the client's questions.
#![tactic(auto)]

mod laws;

pub use laws::{
    answers_are_taken, answers_at_once_tell, answers_tell, heard_answers_tell,
    histories_tell_at_once, questions_are_open, questions_tell, solicitations_are_answered,
};
