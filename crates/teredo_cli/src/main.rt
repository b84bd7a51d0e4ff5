//! The program: the words of the command line, real files, standard output, sockets and the time go to the top call,
//! and its answer is the status.
//!
//! # What it does not know
//!
//! What the words mean: `commands` and `teredo_app` do. What is said on standard error: `entry` does.
//!
//! # Beside the clauses
//!
//! Its one stored run plays the solicitation, and is compared with the report in `crates/teredo_cli/stdout`.
#![tactic(auto)]

ghost use Rattle.std.specs.Prelude.{Option, map, string_bytes};
ghost use Rattle.std.specs.Process.{exit_status};
ghost use Rattle.commands.specs.Command.{Request, IsCommand};
ghost use Rattle.teredo_app.specs.Ends.{MayEnd};

use commands::NO_MEMORY;
use entry::{Asking, behind_name, run_on, tell};
use std::process::ExitCode;
use std::{env, io};
use td_outside::{FileSource, StdSink, SystemClock, UdpPair};

/// The words of the command line without the program's name.
fn words_of(rt: &HostRuntime) -> io::Result<Vec<String>> {
    let args = env::args(rt)?.collect(rt.alloc())?;
    Ok(behind_name(args))
}

/// Runs over real files, standard output and sockets.
fn run_on_system(rt: &HostRuntime, words: &Vec<String>) -> ExitCode
    /// The process ends as `run` may end for the words behind its name. Its edits stand in `entry`, so that none of
    /// them links the program.
    ensures { (asked : Option Request) → IsCommand (map string_bytes words.now.items) asked → MayEnd asked (exit_status result) }
{
    let mut source = FileSource::new(rt);
    let mut sink = StdSink::new(io::writer(rt));
    let mut link = Asking::new(rt, UdpPair::new(rt));
    let mut clock = SystemClock::new(rt);
    run_on(rt, words, &mut source, &mut sink, &mut link, &mut clock)
}

fn main(rt: HostRuntime) -> ExitCode {
    match words_of(&rt) {
        Ok(words) => run_on_system(&rt, &words),
        Err(error) => {
            let none = Vec::new(rt.alloc());
            if error.kind() == io::ErrorKind::OutOfMemory {
                tell(&rt, NO_MEMORY, false, &none);
                return ExitCode::from(NO_MEMORY);
            }
            // Words that aren't text have no shape, and neither has an empty list.
            run_on_system(&rt, &none)
        }
    }
}
