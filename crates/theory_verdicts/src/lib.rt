//! What clients make of their NATs: in every history, where no NAT is behind another one, verdicts are right.
//!
//! # What the layer above may rely on
//!
//! - What a client's verdict is on, and when it is right (`specs/Right.antt`): behind a symmetric NAT a client isn't
//!   qualified, where it is qualified it is settled, and behind another NAT it doesn't hold this for symmetric.
//! - The verdict of each client is right that began behind a NAT which knew nothing of it, that lost nothing there since,
//!   and that was never silent to its server for as long as a mapping lives (`specs/Undisturbed.antt`).
//! - A client that doesn't try the cone phase needs less: its NAT may know it from before. Its address never has the cone
//!   bit.
//!
//! All of this is said of a laboratory whose chain is empty, of an honest history, at each of its records.
//!
//! # What it does not know
//!
//! Whether a client gets a verdict at all; what a verdict is worth where strangers speak as a server does, where a NAT
//! forgets, or where NATs are behind others.
//!
//! # Parts
//!
//! | what is said | in |
//! |---|---|
//! | what a client's NAT kept of it | `specs/Undisturbed.antt` |
//! | which verdicts are right | `specs/Right.antt` |
//! | both, at each record | `specs/Throughout.antt` |
//!
//! # Beside the clauses
//!
//! In plain words: what a client makes of its NAT is so, as long as nothing disturbs it. Behind a symmetric NAT it has
//! no address. Where it has an address, that embeds the NAT's address and the port that the NAT holds for the client
//! towards its server, the server is let in there, and the cone bit is there only behind a cone NAT. Behind a NAT of
//! another kind it never holds this for symmetric. A client is undisturbed where its NAT knew nothing of it at its
//! start, wasn't restarted and didn't forget it since, and where, from the first datagram on, its latest datagram to
//! its server was never as old as the NAT's idle time. What it doesn't say: that a client gets a verdict at all;
//! anything of NATs behind NATs, of which `theory_ways` speaks; or of a scenario in which somebody speaks in the name of the
//! client's server.
#![tactic(auto)]

mod laws;

pub use laws::{
    addresses_stay, histories_have_right_verdicts, scenarios_have_right_verdicts,
    verdicts_are_right,
};
