//! How an endpoint is served at a link: turns, and what is due.
//!
//! # What the layer above may rely on
//!
//! - `pump` receives once, and attempts each send of the answer once, in their order, whether or not earlier ones
//!   failed. It says which failed. What the answer means is the endpoint's own rule. Where no datagram was answered
//!   endpoint and step are as before.
//! - `serve_loop` takes such turns, ends at `count` arrivals or at `idles` idle turns in a row, and its totals are sums
//!   over the turns. It returns, since each turn takes an arrival or is one of the idle ones in a row.
//! - `tick` does the first thing that is due at a moment, and attempts its sends so; `tick_through` does all that is due.
//!   It returns, since a tick leaves less due at its moment.
//! - No call takes memory, other than what an endpoint takes that isn't frugal.
//!
//! # What it does not know
//!
//! What an endpoint answers, and what is behind a link: a socket, a file or a list.
//!
//! # Parts
//!
//! | module | holds | stated in |
//! |---|---|---|
//! | `turn` | `pump`: one turn of an endpoint at a link | `specs/Turn.antt` |
//! | `serve` | `serve_loop`, and its `Totals` | `specs/Serve.antt` |
//! | `ticks` | `tick`, `tick_through`: what is due, done at a link | `specs/Ticks.antt` |
//! | | what a link carried over several calls, and the attempts of several steps | `specs/CarryLaws.antt`, `specs/AttemptLaws.antt` |
#![tactic(auto)]

mod serve;
mod ticks;
mod turn;

pub use serve::{TURNS_MAX, Totals, serve_loop};
pub use ticks::{tick, tick_through};
pub use turn::{PumpFault, Pumped, pump};
