//! The Teredo server: what it answers to one datagram.
//!
//! Standard: RFC 4380, sections 5.3.1 and 5.3.2. Our choices: `docs/DECISIONS.md`, "Server". The table of
//! rules: `docs/RULES.md`, "Server".
//!
//! # What the layer above may rely on
//!
//! - `Server::answer` gives the first line of the table that holds, with its one output or none.
//! - An answer is at most 56 bytes longer than the datagram that drew it, and never goes to the server itself.
//! - What the server sends draws nothing where it comes back to the server.
//! - What the server sends reads back: an advertisement as what it was made of, a packet that goes on as it was.
//! - No call takes memory, and no byte of a peer makes a call fail.
//! - `Server` is a frugal `Endpoint` of a link: its step is the table's, it stays as it is, and nothing is ever due.
//!
//! # What it does not know
//!
//! Sockets, time, peers. A datagram that comes twice is answered twice. What a packet is, its message, and whether that
//! is ill-formed, `bubble` tells it; the other one of two sides, `td_base`; fates, steps and the first line of a table that
//! holds, `teredo_node`.
//!
//! # Parts
//!
//! | module | holds | stated in |
//! |---|---|---|
//! | `server` | `Server` and its settings | `specs/Server.antt`, `Answers.antt`, `Bounds.antt` |
//! | `endpoint` | `Server` as an endpoint of a link | `specs/Endpoint.antt` |
//! | `in_step` | the table carried out in a step | `specs/Server.antt` |
//! | `reply` | `Answer` | `specs/Answers.antt` |
//! | `rules` | the table | `specs/Rules.antt` |
//! | `conditions` | what the lines of the table ask | `specs/Conditions.antt` |
//! | `decision` | what the server does with a datagram, before anything is written | `specs/Decision.antt` |
//! | `advertisement` | the Router Advertisement | `specs/Outputs.antt` |
//! | `forwarded` | the forwarded packet | `specs/Outputs.antt` |
//! | `laws` | what holds of every datagram, and of what is sent | `specs/Laws.antt` |
//!
//! # Beside the clauses
//!
//! No call of this crate takes memory, and a server keeps only its settings: both are seen by reading its type and its
//! signatures.
#![tactic(auto)]

mod advertisement;
mod conditions;
mod decision;
mod endpoint;
mod forwarded;
mod in_step;
mod laws;
mod reply;
mod rules;
mod server;

pub use laws::{
    advert_reads_back, each_ends_among_servers, each_is_from_client, each_is_outgoing,
    each_output_is_made, each_tells_where_to, fate_of_row, forwarded_reads_back, one_outcome,
    one_output, rule_is_warranted, server_numbers,
};
pub use reply::Answer;
pub use server::{GROWTH_MAX, Server, ServerSettings};
