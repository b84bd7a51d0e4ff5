//! The IPv6 packet: its header of 40 bytes, and its body.
//!
//! Standard: RFC 8200, section 3 (the header), section 4.7 (no next header) and section 5 (the least MTU).
//!
//! # What the layer above may rely on
//!
//! - `read` accepts exactly the lists of bytes that spell a packet, and a packet has one spelling.
//! - A list that spells none is refused by the first fault of `Short`, `Version`, `Length`, with the values found.
//! - `write` writes that spelling, or changes nothing where the buffer is too short. What it wrote reads back.
//! - No call takes memory: what is read lends the body.
//!
//! # What it does not know
//!
//! Extension headers, and what a body means: it is bytes. Nothing here asks whether an address is sensible.
//!
//! # Parts
//!
//! | module | holds | stated in |
//! |---|---|---|
//! | `header` | `Packet`, and the numbers of the header | `specs/Packets.antt`, `Reads.antt` |
//! | `fault` | `PacketFault` | `specs/Packets.antt` |
//! | `reader` | `read`, and its two steps `check` and `packet_in` | `specs/Packets.antt`, `Reads.antt` |
//! | `writer` | `write`, `len` | `specs/Packets.antt` |
//! | `laws` | packets as lists of bytes | `specs/Laws.antt` |
#![tactic(auto)]

mod fault;
mod header;
mod laws;
mod reader;
mod writer;

pub use fault::PacketFault;
pub use header::{HEADER, NEXT_ICMP, NEXT_NONE, PACKET_MAX, Packet, VERSION, is_big};
pub use laws::{packet_is_bytes, packet_is_spelled, packet_numbers, packet_reads_back};
pub use reader::{check, packet_in, read};
pub use writer::{len, write};
