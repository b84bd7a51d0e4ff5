//! The hints: what a status means and what to look at, for whoever reads standard error.
//!
//! # What it does not know
//!
//! How a run ended: it has the status, the words of the command line, and whether the output has a reader.

use commands::{
    BAD_PAYLOAD, BAD_SCENARIO, BAD_WORDS, NO_CAPTURE, NO_LINK, NO_MEMORY, NOT_NESTED, UNDECIDED,
    UNLICENSED, UNREADABLE, UNWRITABLE, WIRE_FULL,
};
use std::io::Write;
use td_outside::StdSink;

/// A sink that knows whether somebody reads it.
pub trait Heard {
    /// Whether its last write failed since nobody reads any more.
    fn is_unread(&self) -> bool;
}

impl<W: Write + Drop> Heard for StdSink<W> {
    fn is_unread(&self) -> bool {
        self.is_unread()
    }
}

/// What a status means and what to look at.
fn hint_at(status: u8, is_unread: bool) -> Option<&'static str> {
    match status {
        BAD_PAYLOAD => Some(
            "this is no payload of Teredo: docs/GUIDE.md, \"Reading a datagram\", has the faults",
        ),
        UNDECIDED => Some(
            "the turns were over first: a turn lasts 20 ms at most, and a datagram ends one sooner; a whole qualification takes 36 seconds at most, 1,800 turns where nothing else comes",
        ),
        BAD_WORDS => Some(
            "the words are `lab FILE`, `wire FILE`, `show HEX`, `gen SEED COUNT`, `serve IP1 IP2 COUNT IDLES`, `audit IP1 IP2 FILE`, `explain IP1 IP2 FILE`, `qualify INSIDE IP1 IP2 SEED TURNS`, `nested FILE CHAIN`, `reach FILE CHAIN`, `follow FILE CHAIN` or `state FILE CHAIN each`",
        ),
        BAD_SCENARIO => Some(
            "the scenario is refused (`key`: missing or unknown; `name`: unknown, ill-formed or taken; `range`: not allowed, or taken): `./teredo lint FILE` shows the line",
        ),
        UNREADABLE => Some("the file could not be read: look at its name and its permissions"),
        UNWRITABLE if is_unread => Some("nobody reads standard output any more: its reader ended"),
        UNWRITABLE => Some("standard output could not be written: is it closed, or full?"),
        NO_LINK => Some(
            "the sockets could not be opened: each address must be this machine's, for `serve` with UDP port 3544 free, and there must be memory for them; or one failed later",
        ),
        NO_MEMORY => Some("there was not enough memory"),
        WIRE_FULL => Some("the scenario sends more than 65,536 datagrams and packets"),
        UNLICENSED => Some(
            "nothing that came to the server before licenses a datagram from it: docs/SERVE.md, \"An audit\", has what it may mean",
        ),
        NO_CAPTURE => Some(
            "this is no capture of raw IP packets in at most 96 MiB: docs/CAPTURES.md, \"A capture of your own\", makes one",
        ),
        NOT_NESTED => Some(
            "the scenario isn't played with this chain (`chain`: `-`, or pairs INNER:OUTER of its NATs with commas between them, an inner one before its outer one and inner once, three on a way at most; of `nested` also `nodes`: there is a relay or a native host; `events[I]`: event I, counted from 0, is `forget`, `fault` or `settle`): `./teredo lint FILE --chain CHAIN` shows where",
        ),
        _ => None,
    }
}

// How many words `qualify` has: its link is at the first of them.
const QUALIFY_WORDS: usize = 6;

/// Whether the file is the word behind the command: `nested`, `reach` and `follow` have three words, and no other command that
/// takes a file; and `state` has four, as `audit` and `explain`.
fn has_file_first(words: &[String]) -> bool {
    match words {
        [_, _, _] => true,
        [command, _, _, _] => command.as_str() == "state",
        _ => false,
    }
}

/// Which words of the command line a status is about, by the first one and the one behind. A file is the last word of its
/// command, but for `nested`, `reach`, `follow` and `state`, where it stands before the chain.
fn span_of(status: u8, count: usize, is_file_first: bool) -> (usize, usize) {
    match status {
        BAD_WORDS => (0, 1),
        BAD_SCENARIO | UNREADABLE if is_file_first => (1, 2),
        BAD_SCENARIO | UNREADABLE | UNLICENSED | NO_CAPTURE => (count.saturating_sub(1), count),
        NOT_NESTED => (1, 3),
        NO_LINK if count == QUALIFY_WORDS => (1, 2),
        NO_LINK => (1, 3),
        _ => (0, 0),
    }
}

/// Writes one line on standard error: the words that a status is about, and its hint. Of a status without one nothing.
pub fn tell(rt: &HostRuntime, status: u8, is_unread: bool, words: &Vec<String>) {
    let (first, end) = span_of(status, words.len(), has_file_first(words.as_slice()));
    if let Some(hint) = hint_at(status, is_unread) {
        let _ = eprint!(rt; "teredo_cli: ");
        for word in words.iter().take(end).skip(first) {
            let _ = eprint!(rt; "{word}: ");
        }
        let _ = eprintln!(rt; "{hint}");
    }
}
