//! UDP datagrams over IPv4, both headers with what they carry.
//!
//! Standards: RFC 791, section 3.1 (the header of IPv4), RFC 768 (UDP), RFC 1071 (the checksums' sum).
//!
//! # What the layer above may rely on
//!
//! - `read` accepts exactly the lists of bytes that spell a datagram, and a datagram has one spelling.
//! - A list that spells none is refused by the first fault of `Short`, `Version`, `Head`, `Length`, `Fragment`, `Protocol`,
//!   `UdpShort`, `UdpLength`, with the values found.
//! - `write` writes that spelling, or changes nothing where the buffer is too short. What it wrote reads back.
//! - `make` writes the datagram of two endpoints and a body, with both checksums right, which therefore verify.
//! - No call takes memory: what is read lends options and body.
//!
//! # What it does not know
//!
//! What a body means, what an option is, and how fragments are joined: one is refused. Nothing that is read is asked for its
//! checksums: captures on the machine that sends often hold unfinished ones.
//!
//! # Parts
//!
//! | module | holds | stated in |
//! |---|---|---|
//! | `udp4` | `Udp4` | `specs/Datagrams.antt` |
//! | `fault` | `Ip4Fault` | `specs/Faults.antt` |
//! | `reader` | `read` | `specs/Tests.antt`, `Datagrams.antt`, `Faults.antt` |
//! | `writer`, `heads` | `write`, and both headers as bytes | `specs/Datagrams.antt` |
//! | `maker`, `sums` | `make`, and its checksums | `specs/Checksums.antt` |
//! | `laws` | datagrams as lists of bytes | `specs/Laws.antt` |
//! | `numbers` | lengths, bits and limits | |
//!
//! # Beside the clauses
//!
//! No call takes memory: what is read lends options and body.
#![tactic(auto)]

mod fault;
mod heads;
mod laws;
mod maker;
mod numbers;
mod reader;
mod sums;
mod udp4;
mod writer;

pub use fault::Ip4Fault;
pub use laws::{
    checksums_verify, datagram_numbers, made_is_udp4, udp4_is_bytes, udp4_is_spelled,
    udp4_reads_back,
};
pub use maker::make;
pub use numbers::{FRAGMENT_BITS, HEAD_MIN, OPTIONS_MAX, TOTAL_MAX, TTL, UDP, UDP_HEAD, WORD};
pub use reader::read;
pub use udp4::Udp4;
pub use writer::write;
