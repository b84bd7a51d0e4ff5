//! Loads: which packet of a host each datagram carries, each packet that waits and each that is held.
//!
//! # What the layer above may rely on
//!
//! - A packet is what a host hands in, and has a number. What a record is given has a load, what it makes, lets wait or
//!   holds takes that over, and a release sends what waited with the loads that it had (`specs/Loads.antt`).
//! - What waits and what is held are those records' packets of which the rules of clients and relays say so: the same
//!   definitions, over the numbers of records in place of packets (`specs/Numbered.antt`). With the packets in their
//!   place these are what is known of each address (`specs/Images.antt`).
//! - What a record does with each load that it concerns (`specs/Sayings.antt`), and where each is after a history
//!   (`specs/Ends.antt`), have lines (`specs/FollowLines.antt`).
//!
//! # What it does not know
//!
//! How any of it is found or written: definitions stand here, their types, and a law of them. No bytes of a packet are looked
//! at.
//!
//! # Parts
//!
//! | what is said | in |
//! |---|---|
//! | `Load`, `Way`, `Saying`, `End` | `load`, `way`, `saying`, `end` |
//! | what waits and is held, by the numbers of records | `specs/Numbered.antt` |
//! | who carries what | `specs/Loads.antt` |
//! | what a record does with it | `specs/Sayings.antt` |
//! | where it is after a history | `specs/Ends.antt` |
//! | the lines | `specs/FollowLines.antt` |
//! | what is known by numbers is what is known | `specs/Images.antt`; `laws` |
//!
//! # Beside the clauses
//!
//! What a host hands in is a packet with a number, and so what a node sends, lets wait or holds may carry it, or the
//! reply that a native host made of it. What a record is given has a load, and what it makes of that takes it over; a
//! release sends what waited with the loads that it had; all else carries nothing. What waits and what is held are those
//! records' packets of which the rules of clients and relays say so: the same definitions, over a history in which the
//! number of a record stands in place of its packet. So a load is never told by bytes, and where each packet is in the
//! end follows. All of it stands in `Numbered.antt`, `Loads.antt`, `Sayings.antt`, `Ends.antt` and `FollowLines.antt`,
//! and `worked_lines` computes the lines on worked scenarios. That what carries a packet has its bytes, `theory_loads` says.
#![tactic(auto)]

mod end;
mod laws;
mod load;
mod saying;
mod way;

pub use end::End;
pub use laws::known_is_image;
pub use load::Load;
pub use saying::Saying;
pub use way::Way;
