//! The reader of scenario texts.
//!
//! Standards: TOML 1.1 for the text; RFC 4380 section 4 for which addresses may be a server's; RFC 3489 section 5
//! for the kinds of NAT. The form of a scenario is our own: `docs/SCENARIOS.md`.
//!
//! # What the layer above may rely on
//!
//! - A text is one scenario, or has one first refusal with its path. `specs/Scenario.antt` says which, as a function of
//!   its bytes, and `read` answers exactly that, or that memory ran out.
//! - The nodes keep the rules of a topology: no two share a name or an address, their addresses are global, a client is
//!   behind a NAT and asks a server, a native host has a relay. `rules_kept` says so of every text.
//! - Each event of a scenario is the one that its text asks for, in order, and one that its nodes can be asked for.
//! - `put_refusal_line` gives the line of a refusal: `specs/Refusals.antt`.
//!
//! # What it does not know
//!
//! What an event does, files, and where its lines go.
//!
//! # Parts
//!
//! | module | holds | stated in |
//! |---|---|---|
//! | `reader` | `Scenario`, `read` | `specs/Scenario.antt` |
//! | `scenario_fault`, `refusal_line` | `ScenarioFault`, and its line | `specs/Refusals.antt` |
//! | `path`, `place` | the path of a key | `specs/Paths.antt` |
//! | `row` | what a table has at a key | `specs/Keys.antt` |
//! | `node_kind` | the key, the length and the keys of each list | `specs/NodeKinds.antt` |
//! | `fresh` | what names, addresses and numbers a further node may have | `specs/Fresh.antt`, `NodeName.antt` |
//! | `node_rows` | a node for each kind of table | `specs/NodeRows.antt` |
//! | `node_tables` | the five lists | `specs/NodeTables.antt`, `Filling.antt` |
//! | `event_lists` | the events | `specs/EventLists.antt` |
//! | `laws` | what holds of every scenario | |
//!
//! # Beside the clauses
//!
//! What a TOML text says is stated by the kit's `toml`.
#![tactic(auto)]

mod event_lists;
mod fresh;
mod laws;
mod node_kind;
mod node_rows;
mod node_tables;
mod path;
mod place;
mod reader;
mod refusal_line;
mod row;
mod scenario_fault;

pub use laws::{rules_kept, scenario_numbers};
pub use path::{KEY_SHOWN, PATH_LEN, Path};
pub use reader::{Scenario, TEXT_MAX, read};
pub use refusal_line::put_refusal_line;
pub use scenario_fault::ScenarioFault;
