//! The top call of the program: the words of the command line, a source, a sink, a link and a clock go in, the status
//! comes out.
//!
//! # What the layer above may rely on
//!
//! - The words are one command or none, and `run` ends by it, with the status of `docs/SCENARIOS.md` and what that
//!   status says it has written. On `lab FILE` that is the report of the one legal history of the scenario, or one line
//!   of its text's first refusal; on `show HEX` the page of the payload, or one line that names its first fault; on
//!   `gen SEED COUNT` the totals line of the generated scenario; on `serve IP1 IP2 COUNT IDLES` the line of the totals,
//!   after a server at these addresses answered each arrival by its table; on `wire FILE` the capture of the one legal
//!   history's wire, which is read back as it, and is clean for `audit` where nobody speaks for the server that is asked for
//!   and nothing came to it twice; on `audit IP1 IP2 FILE` the line of the verdict on a capture, or of why the file is none; on
//!   `explain IP1 IP2 FILE` the lines of a capture's records and of their counts, or those before the fault and its line; on
//!   `qualify INSIDE IP1 IP2 SEED TURNS` the line of what a client there found, and of its attempts; on `nested FILE CHAIN`
//!   the report of the one legal history in which the NATs of a chain are behind others, or one line of why there is none; on
//!   `reach FILE CHAIN` a word on each two hosts of which one is a client, and the sums, of the one legal history with that
//!   chain, after which each word keeps its promise, or one line where there is no such chain; on `follow FILE CHAIN` what each
//!   record of that history does with the packets of hosts, and where each of these is in the end, or such a line; on `state
//!   FILE CHAIN each` what each NAT, client and relay keeps before any record and what each record changed of it, or such a line.
//! - All that is proved of every history, which `theory_promises` says, is so of each history that was played (`specs/Reads.antt`).
//! - `lab`, `wire`, `nested`, `reach`, `follow`, `state`, `audit` and `explain` open their file alone, once, and read no more of
//!   it than the longest text or capture and one byte, and no other command touches the source; `serve` opens the link on its two addresses alone,
//!   `qualify` at one socket, and only these touch the link and the clock. Each line, and each record of a capture, begins a
//!   piece of its own.
//!
//! # What it does not know
//!
//! What a node does, how a text is read, how a line looks; how the words are read, and what the commands do that play no
//! scenario, which `commands` does. It has no file, no standard output and no socket of its own.
//!
//! # Parts
//!
//! | module | holds | stated in |
//! |---|---|---|
//! | `generated_scenario` | the scenario that `gen` plays | |
//! | `scenario_file` | the scenario of a file, played: `lab` and `wire` | `specs/Ends.antt`, `Endings.antt` |
//! | `nested_file` | the scenario of a file, played with NATs behind others: `nested` | `specs/Nested.antt` |
//! | `nested_line` | the line of a scenario that isn't one for these | `specs/NestedLine.antt` |
//! | `reach_file` | the scenario of a file, played for the words on its hosts: `reach` | `specs/Reach.antt`, `ReachEndings.antt` |
//! | `follow_file` | the scenario of a file, played for where each packet went: `follow` | `specs/Follow.antt`, `ChainEnds.antt`, `ChainEndings.antt` |
//! | `state_file` | the scenario of a file, played for what its nodes keep: `state` | `specs/State.antt`, `ChainEnds.antt`, `ChainEndings.antt` |
//! | `program` | `run` | `specs/Ends.antt` |
//! | `laws` | what holds of the numbers | `specs/Numbers.antt` |
//!
//! # Beside the clauses
//!
//! The words of the command line are one command or none (`IsCommand`), and `run` has one clause, `ends`, over it:
//! `LabEnds` for `lab FILE`, which is `PlayEnds` with the account of the report, `WireEnds` for `wire FILE`, which is
//! the same with that of the capture (`played`) and what is so of this, `ShowEnds` for `show HEX`, `GenEnds` for `gen
//! SEED COUNT`, `ServeEnds` for `serve IP1 IP2 COUNT IDLES`, `AuditEnds` for `audit IP1 IP2 FILE`, `ExplainEnds` for
//! `explain IP1 IP2 FILE`, `QualifyEnds` for `qualify INSIDE IP1 IP2 SEED TURNS`, `NestedEnds` for `nested FILE CHAIN`,
//! `ReachEnds` for `reach FILE CHAIN`, `FollowEnds` for `follow FILE CHAIN` and `StateEnds` for `state FILE CHAIN each`,
//! which are `ChainEnds` with their accounts, `WordsEnd` for words that are none. Below stand the fields of those that play a
//! scenario, and of what all have; those of the others stand in the section of `commands`. What is said of bytes that
//! were taken or written needs *told*. Each record below is stated by `run`: `ends`.
//!
//! No other answer: `statuses` of each. `show`, `serve`, `qualify` and words that are no command never answer 7; that
//! they take no memory is seen by reading, since no clause sees memory that is taken and given back, or a list that
//! grows and ignores its failure.
//!
//! So where memory is there, no count rises, and source and sink tell their bytes, `lab FILE` answers 0, 3 or 8, and
//! the text decides which; `wire FILE` the same; `nested FILE CHAIN`, `reach FILE CHAIN`, `follow FILE CHAIN` and `state FILE CHAIN each` answer 0, 3, 8 or 12, and
//! text and chain decide; `audit IP1 IP2 FILE` answers 0, 10 or 11, and the file decides; `gen SEED COUNT` answers 0 or
//! 8, and its numbers decide; `show HEX` answers 0 or 1, and the word decides. Where neither the link's receiving count
//! nor the sink's count rises, `serve` answers 0, and `qualify` 0 or 9. A run in which a count of source or sink rose
//! answers 4 or 5, whatever they tell.
//!
//! Every call returns, for all arguments that meet its condition: a Rattle function that has neither `Abort` nor `Wait`
//! in its bounds has no other way. How long the system takes over a read or a write of its own is outside this.
#![tactic(auto)]

mod follow_file;
mod generated_scenario;
mod laws;
mod nested_file;
mod nested_line;
mod program;
mod reach_file;
mod scenario_file;
mod state_file;

pub use laws::program_numbers;
pub use nested_line::NotNested;
pub use program::run;
pub use scenario_file::TEXT_READ_MAX;
