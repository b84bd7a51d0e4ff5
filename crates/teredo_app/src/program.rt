//! The program: a command is carried out, and its status is the answer.
ghost use Rattle.std.specs.Prelude.{◌≡◌, ◌≤◌, Option, map, string_bytes};
ghost use Rattle.events.specs.declared.event.TheConstants.{EVENTS_MAX};
ghost use Rattle.commands.specs.Command.{Request, IsCommand, LeavesSource, LeavesNetwork};
ghost use Rattle.teredo_app.specs.Ends.{GenEnds, RunEnds};

use crate::follow_file::follow;
use crate::generated_scenario::generated_scenario;
use crate::nested_file::nested;
use crate::reach_file::reach;
use crate::scenario_file::{lab, status_of, wire};
use crate::state_file::state;
use commands::{
    BAD_WORDS, Command, GenWords, NO_MEMORY, audit_named, command_of, end_with, explain_named,
    qualify_at, serve_at, show_word,
};
use events::EVENTS_MAX;
use player::{TotalsWriter, play_flat};
use std::alloc::Global;
use td_outside::{Clock, Link, Sink, Source};

/// The command `gen SEED COUNT`.
fn play_generated<K: Sink>(alloc: Global, asked: &GenWords, out: &mut K) -> u8
    requires { asked.now.count ≤ EVENTS_MAX }
    ensures { GenEnds (K.state out.old) (K.state out.new) asked.now result }
{
    generator::generated_is_honest();
    let Ok(s) = generated_scenario(alloc, asked.seed, asked.count) else {
        return NO_MEMORY;
    };
    // for the proof: its rules
    let _rules = s.topology.servers();
    let mut totals = TotalsWriter::new();
    status_of(play_flat(
        Vec::new(alloc),
        s.seed,
        &s.topology,
        &s.events,
        &mut totals,
        out,
    ))
}

/// Does what the words of the command line ask for, and answers the program's status.
pub fn run<S: Source, K: Sink, L: Link, C: Clock>(
    alloc: Global,
    words: &Vec<String>,
    src: &mut S,
    out: &mut K,
    link: &mut L,
    clock: &mut C,
) -> u8
    /// - The words are a command exactly where they are spelled as one.
    /// - `lab`, `nested`, `reach`, `follow`, `state` and `gen` end, for all arguments. It goes through the events in their order, and
    ///   through the records of each by what is left of it, which falls with each further one.
    ///   Leaves open: how long it takes.
    ensures ends { (asked : Option Request) → IsCommand (map string_bytes words.now.items) asked → RunEnds
        (record { source = S.state src.old; sink = K.state out.old; link = L.state link.old; clock = C.state clock.old })
        (record { source = S.state src.new; sink = K.state out.new; link = L.state link.new; clock = C.state clock.new }) asked result }
    /// Only `lab`, `wire`, `nested`, `reach`, `follow`, `state`, `audit` and `explain` touch the source, and only `serve`
    /// and `qualify` the link and the clock.
    ensures source { (asked : Option Request) → IsCommand (map string_bytes words.now.items) asked → LeavesSource asked (src.new ≡ src.old) }
    /// See `source`.
    ensures network { (asked : Option Request) → IsCommand (map string_bytes words.now.items) asked
        → LeavesNetwork asked ((link.new ≡ link.old) × (clock.new ≡ clock.old)) }
{
    let Some(command) = command_of(words.as_slice()) else {
        return end_with(out, b"words\n", BAD_WORDS);
    };
    match command {
        Command::Lab { file } => lab(alloc, file, src, out),
        Command::Serve(asked) => serve_at(&asked, out, link, clock),
        Command::Show { word } => show_word(word, out),
        Command::Gen(asked) => play_generated(alloc, &asked, out),
        Command::Wire { file } => wire(alloc, file, src, out),
        Command::Audit { asked, file } => audit_named(alloc, &asked, file, src, out),
        Command::Explain { asked, file } => explain_named(alloc, &asked, file, src, out),
        Command::Qualify(asked) => qualify_at(alloc, &asked, out, link, clock),
        Command::Nested { file, chain } => nested(alloc, file, chain, src, out),
        Command::Reach { file, chain } => reach(alloc, file, chain, src, out),
        Command::Follow { file, chain } => follow(alloc, file, chain, src, out),
        Command::State { file, chain } => state(alloc, file, chain, src, out),
    }
}
