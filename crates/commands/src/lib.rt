//! The words of the command line, and the commands that play no scenario: `show`, `serve`, `audit`, `explain` and
//! `qualify`.
//!
//! # What the layer above may rely on
//!
//! - `command_of` gives the command that the words are, where they are one, in its one spelling; the words of all commands
//!   stand here (`specs/Command.antt`).
//! - `show_word` ends with the page of the payload, or one line that names its first fault; `serve_at` with the line of the
//!   totals, after a server at its two addresses answered each arrival by its table; `audit_named` with the line of the
//!   verdict on a capture, or of why the file is none; `explain_named` with the lines of a capture's records and of their
//!   counts, or those before the fault and its line; `qualify_at` with the line of what a client at a link found, and of its
//!   attempts. Each answers the program's status, which says what was written and done outside.
//! - `read_named` opens the thing of a name alone, once, and reads no more of it than it is asked for. `end_with` writes one
//!   line, and answers its status or that the sink failed.
//!
//! # What it does not know
//!
//! Scenarios, nodes and histories, and so what `lab`, `wire`, `nested`, `reach`, `state` and `gen` do: it has their words alone. It
//! has no file, no standard output and no socket of its own.
//!
//! # Parts
//!
//! | module | holds | stated in |
//! |---|---|---|
//! | `statuses` | the numbers that the program ends with | |
//! | `command` | the command that the words are | `specs/Command.antt` |
//! | `serve_words` | the words of `serve` | `specs/ServeWords.antt` |
//! | `gen_words` | the words of `gen` | `specs/GenWords.antt` |
//! | `audit_words` | the words of `audit` and `explain` | `specs/AuditWords.antt` |
//! | `qualify_words` | the words of `qualify` | `specs/QualifyWords.antt` |
//! | `source_text` | the bytes of a file | `specs/SourceText.antt` |
//! | `last_line` | the last line of a run, and its status | `specs/LastLine.antt` |
//! | `shown_word` | the datagram that a word spells, shown | `specs/Show.antt` |
//! | `session` | a server at a link | `specs/Session.antt` |
//! | `service` | the same, to its line: `serve` | `specs/Session.antt` |
//! | `serve_line` | the line that `serve` ends with | `specs/ServeLine.antt` |
//! | `capture_file` | a capture in a file: how long it may be, and how a run ends where a file is none | |
//! | `audit_file` | the audit of a file | `specs/Audit.antt`, over `specs/Outside.antt` |
//! | `audit_line` | the lines that `audit` ends with | `specs/AuditLine.antt` |
//! | `explain_file` | a capture of a file, explained | `specs/Explain.antt`, `ExplainEndings.antt` |
//! | `qualification` | a client's qualification at a link | `specs/Qualify.antt` |
//! | `qualify_line` | the line that `qualify` ends with | `specs/QualifyLine.antt` |
//!
//! # Beside the clauses
//!
//! The commands here are `show HEX` (`ShowEnds`), `serve IP1 IP2 COUNT IDLES` (`ServeEnds`), `audit IP1 IP2 FILE`
//! (`AuditEnds`), `explain IP1 IP2 FILE` (`ExplainEnds`) and `qualify INSIDE IP1 IP2 SEED TURNS` (`QualifyEnds`); each
//! is a call whose contract is that record of its endings. What is said of bytes that were taken or written needs
//! *told*. Each record below is stated by `show_word`, `serve_at`, `audit_named`, `explain_named`, `qualify_at`.
//!
//! No other answer: `statuses` of each.
#![tactic(auto)]

mod audit_file;
mod audit_line;
mod audit_words;
mod capture_file;
mod command;
mod explain_file;
mod gen_words;
mod last_line;
mod qualification;
mod qualify_line;
mod qualify_words;
mod serve_line;
mod serve_words;
mod service;
mod session;
mod shown_word;
mod source_text;
mod statuses;

pub use audit_file::audit_named;
pub use audit_line::NoCapture;
pub use audit_words::AuditWords;
pub use capture_file::{CAPTURE_MAX, CAPTURE_READ_MAX};
pub use command::{Command, command_of};
pub use explain_file::explain_named;
pub use gen_words::{GenWords, SEED_MAX};
pub use last_line::end_with;
pub use qualification::qualify_at;
pub use serve_line::put_part;
pub use serve_words::ServeWords;
pub use service::serve_at;
pub use shown_word::show_word;
pub use source_text::{ReadFault, read_named};
pub use statuses::{
    BAD_PAYLOAD, BAD_SCENARIO, BAD_WORDS, DONE, NO_CAPTURE, NO_LINK, NO_MEMORY, NOT_NESTED,
    UNDECIDED, UNLICENSED, UNREADABLE, UNWRITABLE, WIRE_FULL,
};
