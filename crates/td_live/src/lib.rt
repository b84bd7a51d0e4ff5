//! A client's qualification at a link: what NATs this machine stands behind.
//!
//! Standard: RFC 4380, section 5.2.1. Our choices: `docs/DECISIONS.md`, "Clients".
//!
//! # What the layer above may rely on
//!
//! - `qualify` opens the link's one socket, and takes turns: each reads the clock once, does what is due, and receives
//!   once while the client waits for its server's answer. It ends after the first turn after which the client waits no
//!   more, or after as many turns as were asked for.
//! - The answer is that of the phase and the address of the client's journal, whose moments are those that the clock gave
//!   and whose datagrams are those that the link gave. Each of the journal's sends was attempted once, in order, and is
//!   counted.
//! - It fails only where the link's receiving count rose. It takes no memory.
//!
//! # What it does not know
//!
//! Sockets and time: it is proved over every link and every clock. How a client qualifies is `qualify`'s, what it does
//! with a datagram `client_rules`'; no rule of them stands here.
//!
//! # Parts
//!
//! | module | holds | stated in |
//! |---|---|---|
//! | `asked` | `Asked`: what is asked of a session, and the client that it means | `specs/Asked.antt` |
//! | `turn` | one turn: what is due, and one receive | `specs/LiveTurns.antt`, `specs/Half.antt` |
//! | `session` | `qualify`: turns, until the client knows | `specs/Session.antt` |
//! | `live` | `Live`: what was found | `specs/Verdict.antt` |
//! | `live_totals` | `LiveTotals`: how many attempts succeeded and failed | `specs/LiveTotals.antt` |
//! | `laws` | what holds of the numbers | `specs/Numbers.antt` |
//!
//! # Beside the clauses
//!
//! Turns are stated over every link and every clock; what is said of lists needs *told*. A session's journal
//! (`live_journal`) starts at the first moment. Where something is due at a turn's moment there is the entry of a tick;
//! where the phase is then Cone, Restricted or Secondary the turn receives, and a datagram gives an entry, and nothing
//! that came gives none.
#![tactic(auto)]

mod asked;
mod laws;
mod live;
mod live_totals;
mod session;
mod turn;

pub use asked::{Asked, REFRESH_HIGH_MS, REFRESH_LOW_MS, STREAM_NUMBER};
pub use laws::live_numbers;
pub use live::Live;
pub use live_totals::LiveTotals;
pub use session::qualify;
