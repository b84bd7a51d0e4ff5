//! Network address translators of the four kinds, driven by explicit moments.
//!
//! Standard: RFC 3489, section 5. Our choices: `docs/DECISIONS.md`, "NATs".
//!
//! # What the layer above may rely on
//!
//! - A `Nat` stands for the history of its calls (`specs/Nat.antt`), and each call answers what that history
//!   gives: `outward` is `nat_answer`, `inward` is `lets_in`. The histories are quantified in each clause, so a
//!   caller composes calls without looking into `NatStandsFor`.
//! - `port`, `leaves` and `lets_in_once` ask and change nothing: which port is live, where a datagram would leave, and
//!   who would be let in had it been sent.
//! - Only an outward datagram keeps a mapping or a permission alive: `inward` changes nothing.
//! - `Hairpin` comes before `Full`, and both come exactly where the history gives them. `NoMemory` comes only
//!   from `outward`, and the NAT then stands for what it stood for. No other call takes memory.
//! - The laws of `laws` hold of every history: no two keys hold a port, a reply is let in while what it answers
//!   counts, what is let in reaches the endpoint that owns the port and asked the source.
//! - Of whom the inside endpoints asked a NAT keeps no more than they asked in the last two idle times, each once.
//!
//! # What it does not know
//!
//! Packets, sockets and clocks. It moves no bytes: it names endpoints. Moments come with each call and never
//! fall. The latest outward datagram of each port is kept, and when each was asked last; earlier ones aren't. What was
//! asked too long ago is looked for once in an idle time, by `outward`. The lowest free port is looked for behind the
//! first places, while these are known to be live.
//!
//! # Parts
//!
//! | module | holds | stated in |
//! |---|---|---|
//! | `kind`, `refusal`, `settings`, `limits` | the small types, the ports that are given | `specs/Kinds.antt` |
//! | `departure`, `incoming` | a datagram that is to go out, and one that is to come in | |
//! | `outgoing` | `Outward`: its age, its key | `specs/History.antt`, `Mappings.antt` |
//! | `way` | what mappings and permissions are found by | `specs/Way.antt` |
//! | `places`, `index` | the latest datagram of each port, and the port of each key | `specs/Places.antt` |
//! | `front` | how many of the first places are known to be live | `specs/Front.antt` |
//! | `asked` | whom the inside endpoints asked, and when last | `specs/Asked.antt` |
//! | `mappings` | the answers over these | `specs/Answer.antt`, `Entering.antt`, `Sound.antt` |
//! | `translator` | `Nat` | `specs/Nat.antt` |
//! | `laws` | what holds of every history | `specs/Laws.antt` |
//!
//! # Beside the clauses
//!
//! The world has a NAT of this crate for each NAT of a scenario. It asks it for each datagram of a client behind it,
//! and at each delivery to its address.
//!
//! That `inward` changes nothing is seen from its signature. That no call looks through what is kept, but `forget`, a
//! new mapping for the lowest free port, behind the first places where these are known to be live, and `outward` once
//! in an idle time for what was asked too long ago, is seen by reading.
#![tactic(auto)]

mod asked;
mod departure;
mod front;
mod incoming;
mod index;
mod kind;
mod laws;
mod limits;
mod mappings;
mod outgoing;
mod places;
mod refusal;
mod settings;
mod translator;
mod way;

pub use kind::NatKind;
pub use laws::{
    answer_is_lowest_free, asked_are_few, cone_lets_all_in, counting_datagram_holds_its_port,
    latest_datagram_decides, let_in_where_asked, live_mappings_are_few, nat_numbers,
    owner_is_reached, port_has_one_key, reply_is_let_in,
};
pub use limits::{FIRST_PORT, MAPPINGS_MAX};
pub use outgoing::Outward;
pub use refusal::NatRefusal;
pub use settings::NatSettings;
pub use translator::Nat;
