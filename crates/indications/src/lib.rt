//! What may stand in front of a packet in a datagram: an authentication, then an origin.
//!
//! Standard: RFC 4380, section 5.1.1.
//!
//! # What the layer above may rely on
//!
//! - `read` accepts exactly the lists of bytes that begin with indications in their order and then a packet's first
//!   byte. It tells where the packet begins.
//! - A list that begins with none is refused by its first fault, at the place of the block that has it.
//! - `write` writes the indications that it is given, or changes nothing where the buffer is too short. What it wrote
//!   reads back, whatever packet follows.
//! - No call takes memory: identifier and value are told as places in the datagram.
//!
//! # What it does not know
//!
//! Packets beyond their first four bits, and keys: an authentication is read and never checked.
//!
//! # Parts
//!
//! | module | holds | stated in |
//! |---|---|---|
//! | `blocks` | `Auth`, `Origin`, `Lead`, and their lengths | `specs/Blocks.antt` |
//! | `fault` | `LeadFault` | `specs/Faults.antt` |
//! | `head` | what begins at a place | `specs/Indications.antt` |
//! | `leads` | what a rule asks of a `Lead` | `specs/Leads.antt` |
//! | `places` | `Places` | `specs/Places.antt` |
//! | `reader` | `read`, and its steps `places_of`, `bare_lead`, `auth_lead` | `specs/Indications.antt`, `Places.antt` |
//! | `writer` | `write`, `len` | `specs/Blocks.antt` |
//! | `laws` | indications as lists of bytes | `specs/Laws.antt` |
#![tactic(auto)]

mod blocks;
mod fault;
mod head;
mod laws;
mod leads;
mod places;
mod reader;
mod writer;

pub use blocks::{AUTH, AUTH_HEAD, AUTH_TAIL, Auth, Lead, NONCE, ORIGIN, Origin};
pub use fault::LeadFault;
pub use laws::{lead_is_bytes, lead_numbers, lead_reads_back};
pub use leads::{is_confirmed, is_keyed, nonce_of, origin_in};
pub use places::Places;
pub use reader::{auth_lead, bare_lead, places_of, read};
pub use writer::{len, write};
