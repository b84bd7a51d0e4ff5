//! A scenario made from a seed: seventeen nodes, and as many events as are asked for.
//!
//! Standards: RFC 8439 for the words that the events are made of; RFC 5737 and RFC 3849 for the addresses.
//!
//! # What the layer above may rely on
//!
//! - `generate` makes the nodes and events of `specs/Generated.antt`, the same on every machine, or memory ran out.
//! - The nodes keep the rules of a topology, and each event is one that its nodes can be asked for.
//! - Each such scenario is honest: nobody in it says that it is a NAT, a server or a relay.
//!
//! # What it does not know
//!
//! What an event does, texts, and what the words of the nodes themselves are.
//!
//! # Parts
//!
//! | module | holds | stated in |
//! |---|---|---|
//! | `nodes` | the seventeen nodes | `specs/GeneratedNodes.antt` |
//! | `event` | an event of three words | `specs/GeneratedEvent.antt` |
//! | `words` | the stream of the words | `specs/Generated.antt` |
//! | `generated` | `Generated`, `generate` | `specs/Generated.antt` |
//! | `laws` | what holds of every scenario, and of the numbers | `specs/Generated.antt`, `specs/Numbers.antt` |
#![tactic(auto)]

mod event;
mod generated;
mod laws;
mod nodes;
mod words;

pub use event::ADVANCE_END_MS;
pub use generated::{Generated, generate};
pub use laws::{generated_is_honest, generated_numbers};
pub use nodes::{FIRST_CLIENT, FIRST_NAT, FIRST_NATIVE, INSIDE_PORT, MAPPING_IDLE_MS, THE_RELAY};
pub use words::EVENTS_STREAM;
