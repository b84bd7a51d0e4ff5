//! What a program does with its words: they go to the top call, its answer is the status, and standard error says what
//! that means.
//!
//! # What the layer above may rely on
//!
//! - `behind_name` gives the words of the command line without the program's name.
//! - `run_on` ends with the status that `teredo_app::run` answers, after it did outside what that did, and no more.
//! - `Asking` is a link with the state of the one that it is made over; each call is passed on.
//!
//! # What it does not know
//!
//! What the words mean: `commands` and `teredo_app` do. Which source, sink, link and clock are the real ones. What is said on
//! standard error has no clause.
//!
//! # Parts
//!
//! | module | holds | stated in |
//! |---|---|---|
//! | `words` | the words behind the program's name | |
//! | `exit` | the status of a run | |
//! | `hints` | what a status means, for whoever reads standard error | |
//! | `asking` | a link that says what a client asks | |
//!
//! # Beside the clauses
//!
//! What standard error says is tested and not proved (`.ci/program`, `.ci/qualify`). The link that says a client's
//! questions there, `Asking`, is proved to be a `Link` with the state of the one that it is made over; so each call is
//! passed on.
#![tactic(auto)]

mod asking;
mod exit;
mod hints;
mod words;

pub use asking::Asking;
pub use exit::run_on;
pub use hints::{Heard, tell};
pub use words::behind_name;
