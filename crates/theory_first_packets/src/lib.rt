//! The first packet from one settled client to another: in whatever order the datagrams that it draws are delivered, there
//! are five at most, and the packet arrives (RFC 4380, sections 5.2.3, 5.2.4 and 5.2.6).
//!
//! # What the layer above may rely on
//!
//! - What a fresh schedule after a record is, and a complete one, and what one brings (`specs/Schedules.antt`).
//! - A first packet, and its arrival (`specs/AlongWays.antt`): the two clients are settled along their ways, which end at
//!   different NATs, and new to each other. A fresh schedule has five deliveries at most; four where the sender's address has
//!   the cone bit, one where the receiver's has it. A complete one brings the packet to the receiver's host, by rule 1 or
//!   rule 3. Where no NAT is behind another one that is said of settled clients (`specs/FirstPacket.antt`).
//! - A complete one takes one of six courses, four from or one to a client with the cone bit: so many fates, in this order
//!   (`specs/Courses.antt`).
//! - The same of a later packet wherever the two may meet (`specs/MayMeet.antt`): the receiver isn't fresh at the sender, neither
//!   is barred for the other or keeps packets for it, and each has room. Strangers may.
//! - That holds at each record of every history of a chain that keeps its rules, so of each in which no NAT is behind another
//!   one (`specs/AlongWays.antt`, `specs/Throughout.antt`).
//! - Both need room: a sender without room for the receiver drops the packet, and a receiver without room for the sender answers
//!   no bubble of it (`specs/NoRoom.antt`).
//! - Lemmas that first packets of native hosts rest on too, the public files of `proofs/`: NATs of a way, what leaves by it and is
//!   let in, deliveries, bubbles at a server and at a client.
//!
//! # What it does not know
//!
//! What makes a client settled; what becomes of the packet where something is lost, fails or takes time, or where another
//! event stands between. Whether anything is delivered at all.
//!
//! # Parts
//!
//! | what is said | in |
//! |---|---|
//! | fresh and complete schedules, and what they bring | `specs/Schedules.antt` |
//! | the premise, and what becomes of the packet | `specs/FirstPacket.antt` |
//! | the premise of a later packet | `specs/MayMeet.antt` |
//! | the fates of a schedule, in their order | `specs/Courses.antt` |
//! | all of it along ways | `specs/AlongWays.antt` |
//! | the same at each record | `specs/Throughout.antt` |
//! | what becomes of it where one of the two has no room for the other | `specs/NoRoom.antt` |
//!
//! # Beside the clauses
//!
//! In plain words: two clients are settled, so each has an address, and what its server sends there reaches it, past
//! one NAT or past several, one behind the other; and the outermost NAT of one isn't that of the other. They are new to
//! each other: neither lists the other, and each has room for it. Now the host of one hands in a packet for the other,
//! and from then on nothing happens but deliveries: each of an entry that this packet or an earlier delivery brought
//! about, none twice, in whatever order, and no send fails by itself. Then there are five such deliveries at most; four
//! where the sender's address has the cone bit, and one where the receiver's has it. If none is left out, one of them
//! hands just this packet to the receiver's host, by rule 1 or rule 3. It is no matter what strangers sent before,
//! which packets are held, whether flags are random, and whether a client tried the cone phase. It says nothing of what
//! comes where a datagram is lost, a send fails or time passes between, and nothing of whether anything is delivered.
//!
//! Each premise is needed. `crates/worked_facts/proofs/FirstPacketFacts.antt` computes an order in which a first packet
//! arrives, the one of the example `late_bubble`; and histories without a premise, in which it doesn't. Every entry is
//! delivered in five: the sender lists the receiver, the receiver lists the sender, a send fails, both are behind one
//! NAT, 8 seconds pass before the deliveries. Two schedules aren't complete: the bubble to the server is lost, or the
//! answer to it. That both have room the last two claims ask for, and `full_tables` has a history without each.
//! `tests/stored/orders.txt` has every order for each pair of kinds of clients, and ten things that keep the packet
//! from arriving, as they are played.
#![tactic(auto)]

mod laws;

pub use laws::{
    first_packet_arrives, first_packet_arrives_along, full_receiver_hears_nothing,
    full_sender_drops, histories_carry_along, histories_carry_first_packets,
    histories_take_courses, next_packet_arrives, next_packet_arrives_along,
    scenarios_carry_first_packets, strangers_may_meet, takes_a_course, takes_a_course_along,
};
