//! The classic pcap file of raw IP packets: a head of 24 bytes, and records of 16 bytes and a packet's.
//!
//! Standard: the format of libpcap's savefiles (pcap-savefile), version 2.4, link type 101.
//!
//! # What the layer above may rely on
//!
//! - `read_head` accepts exactly the lists of bytes that begin with a head, in either order of bytes, with microseconds or
//!   nanoseconds. `next` accepts exactly those that go on with a record, and says where it ends.
//! - What is refused is refused by its first fault, at the place of the head or the record that has it.
//! - `write_head` and `write_rec` write the one spelling, or change nothing where the buffer is too short. What they wrote
//!   reads back.
//! - A list of bytes is one capture at most: its head, and its records to the end.
//! - No call takes memory: what is read lends the packet's bytes.
//!
//! # What it does not know
//!
//! Packets: a record's bytes are bytes. Other link types, padding, and the newer pcapng are refused.
//!
//! # Parts
//!
//! | module | holds | stated in |
//! |---|---|---|
//! | `head` | `Head`, and its numbers | `specs/Heads.antt` |
//! | `record` | `Rec`, and its numbers | `specs/Records.antt` |
//! | `fault` | `CapFault` | `specs/Heads.antt`, `Records.antt` |
//! | `order` | numbers in either order of bytes | `specs/Orders.antt` |
//! | `reader` | `read_head`, `next` | `specs/Heads.antt`, `Records.antt` |
//! | `writer` | `write_head`, `write_rec` | `specs/Heads.antt`, `Records.antt` |
//! | `laws` | captures as lists of bytes | `specs/Captures.antt`, `Laws.antt` |
//!
//! # Beside the clauses
//!
//! No call takes memory: what is read lends the packet's bytes.
#![tactic(auto)]

mod fault;
mod head;
mod laws;
mod order;
mod reader;
mod record;
mod writer;

pub use fault::CapFault;
pub use head::{
    HEAD, Head, LINK_RAW, MAGIC_MICRO, MAGIC_MICRO_LITTLE, MAGIC_NANO, MAGIC_NANO_LITTLE, MAJOR,
    MINOR,
};
pub use laws::{
    capture_has_no_fault, capture_is_bytes, capture_is_one, head_reads_back, record_reads_back,
};
pub use reader::{next, read_head};
pub use record::{KEPT_MAX, REC_HEAD, Rec};
pub use writer::{write_head, write_rec};
