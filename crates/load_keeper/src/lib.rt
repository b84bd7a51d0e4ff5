//! The loads of a history, kept outside of its nodes: which packet of a host each entry of the wire carries, each packet that
//! waits and each that is held.
//!
//! # What the layer above may rely on
//!
//! - A `LoadKeeper` stands for a history (`specs/Keeper.antt`): it has what entries carry, and what waits and is held at each
//!   node. `hear` takes the next record, and gives all that this says of loads, in order.
//! - Packets aren't looked at, and no node is asked: a record, its peer and where its datagram came from are enough.
//!
//! # What it does not know
//!
//! What a record's peer is, how a record comes about, how a saying is written, where each packet is in the end.
//!
//! # How it is kept
//!
//! For each node there are two lists: the latest touch of each peer, which says who is listed, and what waits or is held, in
//! the order in which it came. What waits for a peer, and what is held of it, goes from there as a whole. What is kept of a peer
//! that isn't listed any more stays until the peer is touched again, or its node starts anew, and counts for nothing.
//!
//! # Parts
//!
//! | module | holds | stated in |
//! |---|---|---|
//! | `effect` | `Effect`: what a fate means for what is kept of a peer | `specs/Effects.antt` |
//! | `touch` | `Touch`, and the touch of a peer among them | `specs/Touches.antt` |
//! | `kept_load`, `held_load` | `KeptLoad`, `HeldLoad` | `specs/Kept.antt` |
//! | `node_loads`, `node_record` | `NodeLoads`: what one node keeps, and after a record | `specs/Kept.antt`, `specs/Hearing.antt` |
//! | `ways`, `says` | what a fate does with a load, and what is said of it | `specs/Hearing.antt` |
//! | `in_order`, `heard` | what a record says of all that its node keeps | `specs/Hearing.antt` |
//! | `load_keeper` | `LoadKeeper` | `specs/Keeper.antt` |
//! | `queries` | where a load waits, and where it is held | `specs/Queries.antt` |
//!
//! # Beside the clauses
//!
//! Seen by reading: a record of a peer costs what its node keeps, and the peers that the node touched since it last touched
//! that one; where the node keeps nothing these are looked through once. Memory is taken where something is released, ends or is dropped, and where a list grows.
#![tactic(auto)]

mod effect;
mod heard;
mod held_load;
mod in_order;
mod kept_load;
mod load_keeper;
mod node_loads;
mod node_record;
mod queries;
mod says;
mod touch;
mod ways;

pub use load_keeper::LoadKeeper;
