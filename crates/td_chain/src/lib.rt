//! NATs behind NATs: which chains may be asked for, and how datagrams pass them.
//!
//! # What the layer above may rely on
//!
//! - `Chains::new` reads the text of a chain: it holds the chain that the text asks for, or refuses exactly where there is
//!   none (`specs/ChainText.antt`, `ChainRules.antt`); by `Chains::alone` no NAT is behind another one. At first the NATs
//!   stand for empty histories.
//! - `Chains` stand for a history of each NAT (`specs/Chains.antt`). The histories are quantified in each clause, so a caller
//!   composes calls without looking into `ChainsStandFor`.
//! - `outward` answers where the datagram leaves its outermost NAT, or the refusal of the first NAT that refuses. Each NAT
//!   that let it out has that in its history, also where another one refuses.
//! - Want of memory comes only from `outward`, at a NAT that had a port to give. That NAT and those outside it stay, and
//!   those inside it have let the datagram out.
//! - `inward` answers at which NAT the way in ends, and changes nothing. `forget` and `restart` change one NAT.
//! - `port`, `leaves` and `lets_in_once` ask and change nothing: which port a NAT has live, where a datagram would leave
//!   were it sent now, and where another one would end then. `walked` tells what each NAT of a way let out of a datagram, by
//!   the ports that they have live for it.
//! - `outermost`, `outer`, `nestings`, `has_symmetric` and `is_all_cone` say what NATs are on a way out.
//!
//! # What it does not know
//!
//! Who is behind a NAT, and what a datagram holds. How a NAT answers stands in `nat_kinds`; no body here looks into one.
//!
//! # Parts
//!
//! | module | holds | stated in |
//! |---|---|---|
//! | `nesting` | a NAT behind another one; who is behind whom | `specs/Nestings.antt`, `Chains.antt` of `topology` |
//! | `rules` | which chains may be asked for | `specs/ChainRules.antt` |
//! | `chain_text`, `chain_fault` | the text of a chain, and its refusal | `specs/ChainText.antt`, `Pairs.antt` |
//! | `passing` | the way out, NAT by NAT; the port that a NAT has live | `specs/Chains.antt`, `Pass.antt` |
//! | `sending`, `leave`, `once` | a datagram that would be sent, where it would leave, and who would be let in then | `specs/Chains.antt`, `Ascent.antt` |
//! | `outside` | what NATs are on a way out | `specs/Chains.antt` of `topology` |
//! | `entering`, `way` | the way in | `specs/Chains.antt` |
//! | `walk`, `let_out` | what the NATs of a way let out, by the ports that they have live | `specs/Walk.antt` |
//! | `forgetting` | one NAT forgets | `specs/Chains.antt` |
//! | `first_nats` | the NATs of a topology before anything happens | |
//! | `chains` | `Chains` | `specs/Chains.antt` |
//! | `laws` | what holds of the number | `specs/Numbers.antt` |
#![tactic(auto)]

mod chain_fault;
mod chain_text;
mod chains;
mod entering;
mod first_nats;
mod forgetting;
mod laws;
mod leave;
mod let_out;
mod nesting;
mod once;
mod outside;
mod passing;
mod rules;
mod sending;
mod walk;
mod way;

pub use chain_fault::ChainFault;
pub use chains::Chains;
pub use laws::chain_numbers;
pub use let_out::LetOut;
pub use rules::WAY_MAX;
pub use sending::Sending;
pub use way::Way;
