//! Packets between a settled client and a host of the IPv6 Internet, both ways: the first one arrives, and so does any later one that
//! may, after at most nine deliveries (RFC 4380, sections 5.2.3, 5.2.4, 5.2.9 and 5.4).
//!
//! # What the layer above may rely on
//!
//! - A client, a native host and the host's relay that are new to each other (`specs/Relayed.antt`): the client is settled along
//!   its way; it lists neither the host nor, without the cone bit, the relay, and the relay doesn't list it; each has room.
//! - A first packet from the host, and its arrival (`specs/FromNative.antt`): the host hands in a packet for the client, which is
//!   neither a bubble nor an echo reply. A fresh schedule has nine deliveries at most, six where the client's address has the cone
//!   bit. A complete one hands the packet to the client's host late, by rule 2: the client holds it until the host has answered a
//!   test.
//! - A first packet to the host, and its arrival (`specs/ToNative.antt`): the client's host hands in a packet for the host, which is
//!   no bubble. It waits at the client until the host has answered a test, and comes with the ninth delivery, with the sixth where
//!   the client's address has the cone bit: in a complete fresh schedule, and in each that has so many deliveries. No more come,
//!   but for two where the host answers the packet itself: the answer is handed to the client's host by rule 1.
//! - The three where they may meet though they know each other (`specs/MayMeetThroughRelay.antt`), and the next packet from the host
//!   (`specs/NextFromNative.antt`) and to it (`specs/NextToNative.antt`): it comes by the ninth delivery where the relay must hear
//!   from the client first, else by the sixth.
//! - For first packets that holds at each record of every history of a chain that keeps its rules, so of each in which no NAT is
//!   behind another one (`specs/Throughout.antt`).
//!
//! # What it does not know
//!
//! What becomes of a packet where one of the three has no room for another, is barred for it, or keeps packets for it. What makes a
//! client settled; what becomes of the packet where something is lost, fails or takes time. Whether anything is delivered at all.
//!
//! # Parts
//!
//! | what is said | in |
//! |---|---|
//! | the three, new to each other | `specs/Relayed.antt` |
//! | the three, where they may meet | `specs/MayMeetThroughRelay.antt` |
//! | a packet from the host: the premise, and what becomes of it | `specs/FromNative.antt`, `specs/NextFromNative.antt` |
//! | a packet to the host: the premise, and what becomes of it | `specs/ToNative.antt`, `specs/NextToNative.antt` |
//! | the same at each record | `specs/Throughout.antt` |
//!
//! # Beside the clauses
//!
//! In plain words: a client is settled along its way. A host of the IPv6 Internet sends it a packet, through the host's
//! relay, and the three are new to each other: the client lists neither the host nor the relay, the relay doesn't list
//! the client, and each has room. From then on nothing happens but deliveries, each of an entry that this packet or an
//! earlier delivery brought about, none twice, and no send fails by itself. Then there are nine such deliveries at
//! most, six where the client's address has the cone bit. If none is left out, one of them hands just this packet to
//! the client's host, late and by rule 2: the client held it until the host had answered a test.
//!
//! The other way the client's host hands in the packet. It waits at the client until the host has answered a test, and
//! goes to the host through the relay from which the answer came: by the ninth delivery, by the sixth where the
//! client's address has the cone bit. No more follow, but two where the packet is an echo request: the host answers it,
//! and the client's host is handed the answer by rule 1. And what is said of first packets is said of later ones too,
//! wherever the three may meet. It says nothing of what comes where a datagram is lost, a send fails or time passes
//! between, and nothing of whether anything is delivered.
//!
//! `crates/worked_facts/proofs/NativeFacts.antt` computes two histories, at a client behind a port restricted NAT and
//! at one behind a cone NAT. All that the theorem needs is met there; all that the packet draws is delivered, in nine
//! deliveries and in six; and the last of them hands it over. And for each that one of the three must not know of
//! another `crates/worked_facts/proofs/UncarriedFacts.antt` has a history without it: the relay has just asked for the
//! client in vain; the client has just sent to the relay's own address; or it has just tested the host in vain. All
//! that the packet draws is delivered there, and it doesn't arrive.
//!
//! Of packets to a native host `crates/worked_facts/proofs/ToNativeFacts.antt` computes three histories. The same two
//! clients send one, and the ninth delivery and the sixth bring it there; the first of them sends an echo request too,
//! which the ninth delivery brings, and with the eleventh its host is handed the answer by rule 1. All that the theorem
//! needs is met there as well, and all that the packet draws is delivered. And
//! `crates/worked_facts/proofs/UnbroughtFacts.antt` has twelve without one thing that it needs. Of the three: the
//! client isn't settled, since its NAT has started anew and given its port to another client; it has just tested the
//! host in vain; it knows the host from before, and the relay has just started anew; the relay has just asked for the
//! client in vain; the relay knows the client from before, and both the client and its NAT have started anew since; or
//! the client has just sent to the relay's own address. Of the packet: it is a bubble. Of what comes after it: the test
//! fails, 8 seconds pass before the deliveries, or the relay starts anew meanwhile. All that the packet draws is
//! delivered there too, and it doesn't come to the host. Nor does it where the answer to the test is lost, or where
//! somebody who has read the test answers it first: the client believes him, and the packet goes to his endpoint.
//!
//! `tests/stored/relayed.txt` has both directions for each kind of client, and eighteen things that keep the packet
//! away, as they are played.
#![tactic(auto)]

mod laws;

pub use laws::{
    first_from_native_arrives, first_to_native_arrives, histories_carry_from_natives,
    histories_carry_to_natives, new_may_meet_through_relay, next_from_native_arrives,
    next_to_native_arrives,
};
