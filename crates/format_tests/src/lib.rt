//! The tests of the formats: vectors from outside, and each public call that may refuse once where it doesn't.
//!
//! The vectors are worked examples of RFC 1071, RFC 4380 and RFC 5952, and datagrams that another program made. What is
//! right comes with them, never from the code that is tried. A crate with tests is proved twice, so those of the crates
//! from `td_base` to `show` stand here, once for all of them: they need public calls alone.
//!
//! # What it does not know
//!
//! Private items of any crate: nothing is made public for a test.
//!
//! # Parts
//!
//! | module | tries |
//! |---|---|
//! | `vectors` | nothing: the datagrams and addresses of the others |
//! | `texts` | `td_base`: numbers, addresses and endpoints as text, lines, names, sums, the blocks of addresses |
//! | `packets` | `ipv6_packet` |
//! | `messages` | `icmp6` |
//! | `addresses` | `teredo_addr` |
//! | `leads` | `indications` |
//! | `payloads` | `bubble` |
//! | `captures` | `td_pcap` |
//! | `datagrams` | `td_ipv4` |
//! | `pages` | `show` |
#![tactic(auto)]

#[cfg(test)]
mod addresses;
#[cfg(test)]
mod captures;
#[cfg(test)]
mod datagrams;
#[cfg(test)]
mod leads;
#[cfg(test)]
mod messages;
#[cfg(test)]
mod packets;
#[cfg(test)]
mod pages;
#[cfg(test)]
mod payloads;
#[cfg(test)]
mod texts;
#[cfg(test)]
mod vectors;
