//! The status of a run.
ghost use Rattle.std.specs.Prelude.{◌≡◌, Option, map, string_bytes};
ghost use Rattle.std.specs.Process.{exit_status};
ghost use Rattle.commands.specs.Command.{Request, IsCommand, LeavesSource, LeavesNetwork};
ghost use Rattle.teredo_app.specs.Ends.{RunEnds};

use crate::hints::{Heard, tell};
use std::process::ExitCode;
use td_outside::{Clock, Link, Sink, Source};
use teredo_app::run;

/// Runs, and ends with the status that `run` answers. Standard error, which `run` doesn't know, gets one plain line.
pub fn run_on<S: Source, K: Sink + Heard, L: Link, C: Clock>(
    rt: &HostRuntime,
    words: &Vec<String>,
    src: &mut S,
    out: &mut K,
    link: &mut L,
    clock: &mut C,
) -> ExitCode
    /// The status of the process is the one that `run` answers.
    ensures ends { (asked : Option Request) → IsCommand (map string_bytes words.now.items) asked → RunEnds
        (record { source = S.state src.old; sink = K.state out.old; link = L.state link.old; clock = C.state clock.old })
        (record { source = S.state src.new; sink = K.state out.new; link = L.state link.new; clock = C.state clock.new }) asked (exit_status result) }
    /// See `ends`.
    ensures source { (asked : Option Request) → IsCommand (map string_bytes words.now.items) asked → LeavesSource asked (src.new ≡ src.old) }
    /// See `ends`.
    ensures network { (asked : Option Request) → IsCommand (map string_bytes words.now.items) asked
        → LeavesNetwork asked ((link.new ≡ link.old) × (clock.new ≡ clock.old)) }
{
    let status = run(rt.alloc(), words, src, out, link, clock);
    tell(rt, status, out.is_unread(), words);
    ExitCode::from(status)
}
