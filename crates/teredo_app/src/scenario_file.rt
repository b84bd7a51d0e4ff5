//! The scenario of a file, and the commands that play it.
ghost use Rattle.std.specs.Prelude.{◌≡◌, ◌≤◌, List, Ok, length, OnOk, IfOk, IfErr};
ghost use Rattle.std.specs.List.{AllByRecursion};
ghost use Rattle.td_outside.specs.Moves.{Gains};
ghost use Rattle.topology.specs.Chains.{Behind};
ghost use Rattle.events.specs.declared.event.TheConstants.{EVENTS_MAX};
ghost use Rattle.events.specs.Events.{IsEvent};
ghost use Rattle.theory_promises.specs.Kept.{IsKeptSoFar};
ghost use Rattle.scenario.specs.Told.{told};
ghost use Rattle.commands.specs.SourceText.{TakesAtMost};
ghost use Rattle.teredo_app.specs.Reads.{Reads};
ghost use Rattle.teredo_app.specs.Ends.{LabEnds, WireEnds};
ghost use Rattle.teredo_app.specs.Endings.{NotPlayed, status_of};

use commands::{BAD_SCENARIO, DONE, NO_MEMORY, UNWRITABLE, WIRE_FULL, end_with, read_named};
use events::EVENTS_MAX;
use player::{CaptureWriter, PlayFault, ReportWriter, play_flat};
use scenario::{Scenario, ScenarioFault, TEXT_MAX, put_refusal_line, read};
use std::alloc::Global;
use td_base::LineBuf;
use td_outside::{Sink, Source};

/// How many bytes of a file are read at most: those of the longest text, and one that shows that it is longer.
pub const TEXT_READ_MAX: usize = TEXT_MAX + 1;

/// The scenario of a file, and its text, or the status of a run that ends without one.
pub(crate) fn scenario_in<S: Source, K: Sink>(
    alloc: Global,
    file: &str,
    src: &mut S,
    out: &mut K,
) -> Result<(Scenario, Vec<u8>), u8>
    ensures opened { Gains (S.state src.old).openings (S.state src.new).openings file.now }
    ensures taken { TakesAtMost TEXT_READ_MAX (S.state src.old).taken (S.state src.new).taken }
    ensures read { IfOk result (λ it. Reads (S.state src.old) file.now (Ok (told it.0))) }
    ensures quiet { OnOk result ((S.state src.new).faults ≡ (S.state src.old).faults) }
    ensures untouched { OnOk result (out.new ≡ out.old) }
    ensures few { IfOk result (λ it. length it.0.events ≤ EVENTS_MAX) }
    ensures legal { IfOk result (λ it. AllByRecursion (IsEvent it.0.topology) it.0.events) }
    ensures promised { IfOk result (λ it. (chain : List Behind) → IsKeptSoFar (told it.0) chain) }
    ensures ends { IfErr result (λ status. NotPlayed (S.state src.old) (S.state src.new) (K.state out.old) (K.state out.new) file.now status) }
{
    let text = read_named(alloc, src, file, TEXT_READ_MAX)?;
    match read(alloc, &text) {
        Ok(s) => {
            // for the proof: its rules
            let _rules = s.topology.servers();
            Ok((s, text))
        }
        Err(ScenarioFault::NoMemory) => Err(NO_MEMORY),
        Err(fault) => {
            let mut line = LineBuf::new();
            put_refusal_line(&fault, &mut line);
            Err(end_with(out, line.as_slice(), BAD_SCENARIO))
        }
    }
}

/// The status of a scenario that was played so.
pub(crate) fn status_of(played: Result<(), PlayFault>) -> u8
    ensures { result ≡ status_of played }
{
    match played {
        Ok(()) => DONE,
        Err(PlayFault::Failed) => UNWRITABLE,
        Err(PlayFault::NoMemory) => NO_MEMORY,
        Err(PlayFault::WireFull) => WIRE_FULL,
    }
}

/// The command `lab FILE`.
pub fn lab<S: Source, K: Sink>(alloc: Global, file: &str, src: &mut S, out: &mut K) -> u8
    ensures { LabEnds (S.state src.old) (S.state src.new) (K.state out.old) (K.state out.new) file.now result }
{
    match scenario_in(alloc, file, src, out) {
        Ok((s, text)) => {
            let mut report = ReportWriter::new(&s.topology);
            status_of(play_flat(text, s.seed, &s.topology, &s.events, &mut report, out))
        }
        Err(status) => status,
    }
}

/// The command `wire FILE`.
pub fn wire<S: Source, K: Sink>(alloc: Global, file: &str, src: &mut S, out: &mut K) -> u8
    ensures { WireEnds (S.state src.old) (S.state src.new) (K.state out.old) (K.state out.new) file.now result }
{
    theory_wires::scenarios_hold_wires();
    match scenario_in(alloc, file, src, out) {
        Ok((s, text)) => {
            // for the proof: its rules
            let _rules = s.topology.servers();
            let mut capture = CaptureWriter::new();
            status_of(play_flat(text, s.seed, &s.topology, &s.events, &mut capture, out))
        }
        Err(status) => status,
    }
}
