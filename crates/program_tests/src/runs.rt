//! Runs over a source, a sink, a link and a clock in memory, and how they end.
use crate::vectors::{ROOM, words_of};
use std::alloc::Global;
use td_base::{Millis, NoMemory};
use td_outside::{MemLink, MemSink, MemSource, TestClock};
use teredo_app::run;

/// The name of the one file.
pub const NAME: &str = "f.toml";

pub const LAB: [&str; 2] = ["lab", NAME];

/// A run: its words, the text of its file, which calls fail, and then its status and what was written.
#[derive(Clone, Copy)]
pub struct Row<'a> {
    pub words: &'a [&'a str],
    pub text: &'a [u8],
    pub read_fails: &'a [u64],
    pub write_fails: &'a [u64],
    pub status: u8,
    pub written: &'a str,
}

/// A run in which no call fails.
pub fn ending<'a>(words: &'a [&'a str], text: &'a str, status: u8, written: &'a str) -> Row<'a> {
    ending_on(words, text.as_bytes(), status, written)
}

/// A run in which no call fails, on bytes that may be no text.
pub fn ending_on<'a>(
    words: &'a [&'a str],
    text: &'a [u8],
    status: u8,
    written: &'a str,
) -> Row<'a> {
    Row {
        words,
        text,
        read_fails: &[],
        write_fails: &[],
        status,
        written,
    }
}

/// The status of a run, and the sink that it wrote to.
pub fn ended(alloc: Global, row: &Row) -> Result<(u8, MemSink), NoMemory> {
    let words = words_of(alloc, row.words)?;
    let mut source = MemSource::new(alloc, NAME, row.text, row.read_fails)?;
    let mut sink = MemSink::new(alloc, ROOM, row.write_fails)?;
    let mut link = MemLink::new(alloc, Vec::new(alloc), 0, &[], &[])?;
    let mut clock = TestClock::new([Millis(0); 4]);
    let status = run(alloc, &words, &mut source, &mut sink, &mut link, &mut clock);
    Ok((status, sink))
}

/// Whether the run ends so.
pub fn ends_so(alloc: Global, row: &Row) -> Result<bool, NoMemory> {
    let (status, sink) = ended(alloc, row)?;
    Ok(status == row.status && sink.as_slice() == row.written.as_bytes())
}

/// A scenario that is played: the tables of its nodes, lists of its events, and its report.
#[derive(Clone, Copy)]
pub struct Scene<'a> {
    pub nodes: &'a [&'a str],
    pub events: &'a [&'a str],
    pub report: &'a str,
}

/// The text with these lists of events and these tables of nodes.
pub fn text_with(alloc: Global, nodes: &[&str], events: &[&str]) -> Result<String, NoMemory> {
    let mut text = String::from_str(alloc, "seed = 1\nevents = [")?;
    for list in events {
        text.push_str(list)?;
        text.push_str(", ")?;
    }
    text.push_str("]\n")?;
    for table in nodes {
        text.push_str(table)?;
    }
    Ok(text)
}

/// Whether the scene is played to its end, with its report.
pub fn plays_so(alloc: Global, scene: &Scene) -> Result<bool, NoMemory> {
    let text = text_with(alloc, scene.nodes, scene.events)?;
    ends_so(alloc, &ending(&LAB, text.as_str(), 0, scene.report))
}
