//! The tests of the program: `run` over forms in memory and over real sockets, and the laboratory's calls once each.
//!
//! Expected lines are worked out by hand from the rules, never taken from what the program wrote. A crate with tests is
//! proved twice, so those of `native_host`, `topology` and the crates from `report` to `teredo_app` stand here, once for
//! all of them: they need public calls alone. A scenario whose report is compared, and no more, stands in `tests/worked`:
//! `.ci/worked` plays it by the built program. Here each word has one that is short, and what no word of the program says:
//! sources and sinks that fail, links in memory, single calls.
//!
//! # What it does not know
//!
//! Private items of any crate: nothing is made public for a test.
//!
//! # Parts
//!
//! | module | tries |
//! |---|---|
//! | `vectors` | nothing: the datagrams of the others |
//! | `runs`, `nets` | nothing: how a run ends, and the tables of nodes of the others |
//! | `files_and_words` | `run` on `lab`, `show` and `gen`, on words that are no command, with sources and sinks that fail |
//! | `cuts` | `run` on `show` and `lab`, with a datagram that is cut short |
//! | `failing_sends` | `run` on `lab`, with sends that fail, and with all that is on the wire delivered |
//! | `full_wires` | `run` on `lab` and `reach`, and `player`, with a scenario that sends more than the wire holds |
//! | `captures` | `run` on `wire`, `audit` and `explain` |
//! | `nested` | `run` on `nested` |
//! | `reach` | `run` on `reach`, with a source and a sink that fail |
//! | `followed_packets` | `run` on `follow`, with a source and a sink that fail |
//! | `kept_states` | `run` on `state`, with a source and a sink that fail |
//! | `refusals` | `run` on `lab`, with bytes that are no text, and with too many |
//! | `arrivals` | `run` on `serve`, over a link in memory |
//! | `sockets` | `run` on `serve`, over two sockets |
//! | `qualifications` | `run` on `qualify`, over a link in memory |
//! | `chain_texts` | `scenario` and `td_chain` |
//! | `worlds` | `world` and `td_nested` |
//! | `lines` | `report` |
//! | `names` | `topology` |
//! | `natives` | `native_host` |
#![tactic(auto)]

#[cfg(test)]
mod arrivals;
#[cfg(test)]
mod captures;
#[cfg(test)]
mod chain_texts;
#[cfg(test)]
mod cuts;
#[cfg(test)]
mod failing_sends;
#[cfg(test)]
mod files_and_words;
#[cfg(test)]
mod followed_packets;
#[cfg(test)]
mod full_wires;
#[cfg(test)]
mod kept_states;
#[cfg(test)]
mod lines;
#[cfg(test)]
mod names;
#[cfg(test)]
mod natives;
#[cfg(test)]
mod nested;
#[cfg(test)]
mod nets;
#[cfg(test)]
mod nodes;
#[cfg(test)]
mod qualifications;
#[cfg(test)]
mod reach;
#[cfg(test)]
mod refusals;
#[cfg(test)]
mod runs;
#[cfg(test)]
mod sockets;
#[cfg(test)]
mod vectors;
#[cfg(test)]
mod worlds;
