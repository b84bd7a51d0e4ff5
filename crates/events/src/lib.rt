//! The events that a scenario asks for, and their texts.
//!
//! # What the layer above may rely on
//!
//! A text asks for one event, or has one fault, with its place: `specs/EventText.antt` says which, as a function of
//! the nodes and the bytes. An event prints as a text that reads back.
//!
//! # What it does not know
//!
//! What comes of an event.
//!
//! # Parts
//!
//! | module | holds | stated in |
//! |---|---|---|
//! | `event`, `target`, `event_list` | `Event`, `Target`, `Events` | `specs/Events.antt`, `Scenario.antt` |
//! | `verb` | `Verb`, the word that an event begins with | `specs/Verbs.antt` |
//! | `event_reader`, `event_fault` | the event of a text, or its fault | `specs/EventText.antt` |
//! | `event_words` | the words of a text, one after the other | `specs/EventText.antt`, `Answers.antt` |
//! | `word_texts`, `node_words` | what one word says beside numbers and addresses: bytes; nodes | `specs/Words.antt`, `NodeWords.antt` |
//! | `event_printer` | the text of an event | `specs/EventSpelling.antt` |
//! | `laws` | what holds of the numbers | `specs/Numbers.antt` |
//!
//! # Beside the clauses
//!
//! The definition of a scenario stands in `Scenario.antt`.
#![tactic(auto)]

mod event;
mod event_fault;
mod event_list;
mod event_printer;
mod event_reader;
mod event_words;
mod laws;
mod node_words;
mod target;
mod verb;
mod word_texts;

pub use event::{
    ADVANCE_MAX_MS, BODY_MAX, ENTRY_NUMBER_MAX, EVENTS_MAX, Event, FAULT_MAX, SEQUENCE_MAX,
};
pub use event_fault::EventFault;
pub use event_list::Events;
pub use event_printer::print_event;
pub use event_reader::read_event;
pub use laws::event_numbers;
pub use target::Target;
pub use verb::Verb;
