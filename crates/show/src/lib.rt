//! The text of a datagram: a word of hexadecimal digits is taken apart, and its parts are put on a page, line by line.
//!
//! Standards: RFC 4380, section 5.1.1 (the payload) and section 4 (what a Teredo address embeds); RFC 5952, section 4
//! (the text of an IPv6 address). Our choice: which text is hexadecimal, and how a line looks (`docs/GUIDE.md`,
//! "Reading a datagram").
//!
//! # What the layer above may rely on
//!
//! - `explain` puts on the page the lines of the one payload that the word says, or one line with the first fault:
//!   where the word is no hexadecimal text, else what the payload's reader tells.
//! - Its answer tells which of the two stands there. There is no third, and nothing else is left on the page.
//! - The parts of a line, and a fault in words, are there for other lines too.
//! - No call takes memory, and none fails: a page has room for the longest payload's lines.
//!
//! # What it does not know
//!
//! Whether a node would take the datagram, and whether an ICMPv6 message is right. Where the word comes from, and where
//! the page goes.
//!
//! # Parts
//!
//! | module | holds | stated in |
//! |---|---|---|
//! | `page` | `Page`, a text that is being made | |
//! | `line_texts` | numbers, addresses and bytes as text | `specs/Lines.antt` |
//! | `words` | what hexadecimal text is, and the bytes that it says | `specs/Words.antt` |
//! | `payload_lines` | the lines of a payload | `specs/Lines.antt` |
//! | `fault_words`, `fault_lines` | a fault in words, and the line of one | `specs/Faults.antt` |
//! | `explainer` | `explain` | `specs/Explained.antt`, `Shown.antt` |
//! | `laws` | what holds of the numbers | `specs/Numbers.antt` |
//!
//! # Beside the clauses
//!
//! No call takes memory: it is seen by reading the signatures.
#![tactic(auto)]

mod explainer;
mod fault_lines;
mod fault_words;
mod laws;
mod line_texts;
mod page;
mod payload_lines;
mod words;

pub use explainer::explain;
pub use fault_words::{FAULT_ROOM, put_payload_fault};
pub use laws::show_numbers;
pub use line_texts::{put_ep, put_field, put_number};
pub use page::{PAGE_LEN, Page};
