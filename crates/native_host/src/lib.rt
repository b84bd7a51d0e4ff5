//! A host of the IPv6 Internet: what it does with a packet that it sends, and with one that comes.
//!
//! Standards: RFC 8200, section 3 (packets), RFC 4443, sections 4.1 and 4.2 (echoes). The rules are our choice:
//! `docs/RULES.md`, "Native hosts".
//!
//! # What the layer above may rely on
//!
//! - `send` gives the fate of a packet of the host's own, and with it whether it goes out.
//! - `receive` writes the reply where the definition has one, whole, and else nothing. The reply is as long as the request.
//! - What it sends is a packet of its own, or the reply to an echo request from a global address.
//! - No call takes memory, and nothing is kept: a host answers each packet as if it were the first.
//!
//! # What it does not know
//!
//! Which way a packet goes: a native host's relay is the caller's to know.
//!
//! # Parts
//!
//! | module | holds | stated in |
//! |---|---|---|
//! | `outgoing` | `send` | `specs/Natives.antt` |
//! | `incoming` | `receive` | `specs/Natives.antt` |
//! | `laws` | what is sent, read back | `specs/NativeSends.antt` |
//! | `limits` | the numbers of a host | |
#![tactic(auto)]

mod incoming;
mod laws;
mod limits;
mod outgoing;

pub use incoming::receive;
pub use laws::{each_is_own_packet, each_is_reply, each_reply_is_made};
pub use limits::{HOST_DATA_NEXT, HOST_ECHO_ID, HOST_HOP};
pub use outgoing::send;
