//! ICMPv6 messages: echoes, Router Solicitations and Router Advertisements, and any other as it is.
//!
//! Standards: RFC 4443 sections 2.3 (the checksum), 4.1 and 4.2 (echoes), RFC 4861
//! sections 4.1, 4.2 and 4.6 (router messages and options), 6.1.1 and 6.1.2 (which of these are valid).
//!
//! # What the layer above may rely on
//!
//! - `read` accepts exactly the messages of the grammar, each byte of them, and else gives the first fault,
//!   with the values or the place found.
//! - `write` writes a message of the grammar, with the right checksum, and what it wrote reads back.
//! - `options` gives every option of a message that was read, in order, and ends after the last.
//! - No call takes memory.
//!
//! # What it does not know
//!
//! IPv6 headers, who sends a message, and what the options mean to a node.
//!
//! # Parts
//!
//! | module | holds | stated in |
//! |---|---|---|
//! | `message` | `Msg` | `specs/Message.antt` |
//! | `fault` | `IcmpFault` | `specs/Faults.antt` |
//! | `reader` | `read` | `specs/Message.antt`, `Grammar.antt`, `Faults.antt` |
//! | `writer` | `write` | `specs/Layout.antt` |
//! | `opt` | `Opt` | `specs/Blocks.antt` |
//! | `iter`, `lend` | `Options`, `options` | `specs/Blocks.antt` |
//! | `walk` | whole options, one behind the other | `specs/Options.antt` |
//! | `sum` | the checksum | `specs/Checksum.antt` |
//! | `laws` | messages as lists of bytes | `specs/Laws.antt` |
//! | `numbers` | types, lengths and limits | |
#![tactic(auto)]

mod fault;
mod iter;
mod laws;
mod lend;
mod message;
mod numbers;
mod opt;
mod reader;
mod sum;
mod walk;
mod writer;

pub use fault::IcmpFault;
pub use iter::Options;
pub use laws::{
    message_is_bytes, message_numbers, message_reads_back, options_read_back, spelling_is_read,
};
pub use lend::options;
pub use message::Msg;
pub use numbers::{
    ADVERT_LEN, ECHO_LEN, ECHO_REPLY, ECHO_REQUEST, HEAD_LEN, ICMPV6, MESSAGE_MAX, MTU_OPTION,
    MTU_UNITS, OPTION_HEAD_LEN, OPTION_UNIT, PREFIX_INFORMATION, PREFIX_UNITS, ROUTER_ADVERT,
    ROUTER_HOP, ROUTER_SOLICIT, SOLICIT_LEN,
};
pub use opt::Opt;
pub use reader::read;
pub use writer::write;
