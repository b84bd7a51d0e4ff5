//! Addresses and endpoints, their texts, and numbers in bytes.
//!
//! Standards: RFC 4291 (IPv6 addresses), RFC 5952 section 4 (their text), RFC 4380 section 4 (which IPv4
//! addresses may be embedded), RFC 1071 (the checksums' sum). Our choices: `docs/DECISIONS.md`, "Addresses".
//!
//! # What the layer above may rely on
//!
//! - A value prints as one text, which reads back as the value. Of an IPv6 address each other spelling is read as it, too.
//! - A text that is refused is refused at its place: the length of the longest front that begins an accepted text.
//! - `ones_sum` is the sum of all Internet checksums, whole or in steps. `unfolded_sum` is the same sum while
//!   it goes on, and `folded_sum` its end, so that it is folded once.
//! - `==` on addresses and endpoints is an opaque test with laws (`specs/Ip4.antt`, `Ip6.antt`, `Ep.antt`).
//! - No call takes memory but that of `Octets::new`, for its copy.
//!
//! # What it does not know
//!
//! Packets, nodes, files, sockets and time that passes.
//!
//! # Parts
//!
//! | module | holds | stated in |
//! |---|---|---|
//! | `ipv4`, `ipv6`, `endpoint` | `Ip4`, `Ip6`, `Ep`: equality and order | `specs/Ip4.antt`, `Ip6.antt`, `Ep.antt` |
//! | `reach` | `Policy`, and which addresses are global, usable, link-local | `specs/Reach.antt` |
//! | `millis`, `span`, `datagram` | `Millis` and the end of all clocks, `Span`, and the most bytes of a datagram | |
//! | `octets` | `Octets`, bytes that are kept | |
//! | `side` | `Side` | `specs/Side.antt` |
//! | `refusals` | `BadText`, `Room`, `NoMemory` | |
//! | `fields` | numbers in network order, and addresses, at a place | `specs/Bytes.antt` |
//! | `halves` | the one's complement sum | `specs/Sums.antt` |
//! | `line` | `LineBuf`, a line that is being made | `specs/Prints.antt` |
//! | `numeral`, `ipv4_text`, `endpoint_text` | the texts of numbers, IPv4 addresses and endpoints | `specs/Texts.antt` |
//! | `ipv6_text`, `ipv6_reader` | the texts of IPv6 addresses, printed and read | `specs/Ip6Texts.antt` |
//! | `laws` | what holds of every text; what a text is, as a function | `specs/Laws.antt`, `Values.antt`, `Ip6Values.antt` |
//! | `short_text`, `ipv6_groups` | how long such texts are, and the groups of an IPv6 address | |
//! | `digits` | the digits of a number, written at a place in a line or a buffer | |
//!
//! `specs/Fronts.antt` and `Ip6Fronts.antt` say how a text is read from its front, for the contracts of private functions.
//!
//! # Beside the clauses
//!
//! No other call of this crate takes memory. The clauses of a trait's call, such as `==`, are its `ghost` lines.
#![tactic(auto)]

mod datagram;
mod digits;
mod endpoint;
mod endpoint_text;
mod fields;
mod halves;
mod ipv4;
mod ipv4_text;
mod ipv6;
mod ipv6_groups;
mod ipv6_reader;
mod ipv6_text;
mod laws;
mod line;
mod millis;
mod numeral;
mod octets;
mod reach;
mod refusals;
mod short_text;
mod side;
mod span;

pub use datagram::DATAGRAM_MAX;
pub use endpoint::{Ep, TEREDO_PORT};
pub use endpoint_text::{print_ep, read_ep};
pub use fields::{field16, field32, field64, ip4_at, ip6_at, put, put8, put16, put32, put64};
pub use halves::{SUM_START_MAX, folded_sum, ones_sum, unfolded_sum};
pub use ipv4::Ip4;
pub use ipv4_text::{print_ip4, read_ip4};
pub use ipv6::Ip6;
pub use ipv6_reader::read_ip6;
pub use ipv6_text::print_ip6;
pub use laws::texts_are_made;
pub use line::{LINE_LEN, LineBuf, print_text};
pub use millis::{CLOCK_END_MS, Millis};
pub use numeral::{NUMBER_LEN, print_number, read_number};
pub use octets::Octets;
pub use reach::{Policy, is_global, is_global6, is_link_local, usable};
pub use refusals::{BadText, NoMemory, Room};
pub use short_text::SHORT_LEN;
pub use side::Side;
pub use span::Span;
