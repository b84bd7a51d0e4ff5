//! A capture of a file, explained.
ghost use Rattle.std.specs.Prelude.{◌≡◌, Some, None};
ghost use Rattle.td_explain.specs.declared.said.Said.TheVariants.{Held};
ghost use Rattle.sink_lines.specs.Lines.{Writing};
ghost use Rattle.td_explain.specs.Lines.{said_lines};
ghost use Rattle.commands.specs.Explain.{ExplainEnds, tally_status};
ghost use Rattle.commands.specs.ExplainEndings.{TellingEnds, FaultEnds, TellFaultEnds};

use crate::audit_line::NoCapture;
use crate::audit_words::AuditWords;
use crate::capture_file::{CAPTURE_MAX, CAPTURE_READ_MAX, end_no_capture};
use crate::last_line::end_with;
use crate::source_text::read_named;
use crate::statuses::{DONE, NO_MEMORY, UNLICENSED, UNWRITABLE};
use show::Page;
use sink_lines::write_line;
use std::alloc::Global;
use td_audit::AuditFault;
use td_explain::{
    Answered, Explainer, Question, Said, Tally, put_answered_line, put_asked_line, put_other_line,
    put_skipped_line, put_tally_line,
};
use td_outside::{Failed, Sink, Source};

/// Why the records of a capture aren't told to their end.
#[derive(Clone, Copy, Debug)]
enum TellFault {
    /// The sink failed.
    Failed,
    /// What follows is refused, or memory ran out.
    Fault(AuditFault),
}

impl From<Failed> for TellFault {
    ghost use Rattle.std.specs.Prelude.{◌≡◌};
    ghost use Rattle.commands.specs.declared.explain_file.TellFault.TheVariants as faults;

    ghost from_gives = { λ _ e. e ≡ faults.Failed };

    fn from(_: Failed) -> Self {
        TellFault::Failed
    }
}

impl From<AuditFault> for TellFault {
    ghost use Rattle.std.specs.Prelude.{◌≡◌};
    ghost use Rattle.commands.specs.declared.explain_file.TellFault.TheVariants as faults;

    ghost from_gives = { λ fault e. e ≡ faults.Fault fault };

    fn from(fault: AuditFault) -> Self {
        TellFault::Fault(fault)
    }
}

/// The status that goes with the counts.
fn tally_status(tally: &Tally) -> u8
    ensures { result ≡ tally_status tally.now }
{
    if tally.unlicensed == 0 {
        return DONE;
    }
    UNLICENSED
}

/// Writes the lines of a datagram to the server, which may be from it too.
fn write_asked<K: Sink>(
    place: u64,
    question: Question,
    answered: Option<Answered>,
    page: &mut Page,
    out: &mut K,
) -> Result<(), Failed>
    ensures { Writing (K.state out.old) (K.state out.new) (said_lines place (Held (Some question) answered)) result }
{
    put_asked_line(place, &question, page);
    write_line(out, page.as_slice())?;
    match answered {
        None => Ok(()),
        Some(answer) => {
            put_answered_line(place, &answer, page);
            write_line(out, page.as_slice())
        }
    }
}

/// Writes the line of a datagram that isn't to the server.
fn write_unasked<K: Sink>(
    place: u64,
    answered: Option<Answered>,
    page: &mut Page,
    out: &mut K,
) -> Result<(), Failed>
    ensures { Writing (K.state out.old) (K.state out.new) (said_lines place (Held None answered)) result }
{
    match answered {
        None => {
            put_other_line(place, page);
            write_line(out, page.as_slice())
        }
        Some(answer) => {
            put_answered_line(place, &answer, page);
            write_line(out, page.as_slice())
        }
    }
}

/// Writes the lines of a datagram.
fn write_held<K: Sink>(
    place: u64,
    asked: Option<Question>,
    answered: Option<Answered>,
    page: &mut Page,
    out: &mut K,
) -> Result<(), Failed>
    ensures { Writing (K.state out.old) (K.state out.new) (said_lines place (Held asked answered)) result }
{
    match asked {
        None => write_unasked(place, answered, page, out),
        Some(question) => write_asked(place, question, answered, page, out),
    }
}

/// Writes the lines of a record.
fn write_said<K: Sink>(place: u64, said: Said, page: &mut Page, out: &mut K) -> Result<(), Failed>
    ensures { Writing (K.state out.old) (K.state out.new) (said_lines place said) result }
{
    match said {
        Said::Skipped(fault) => {
            put_skipped_line(place, fault, page);
            write_line(out, page.as_slice())
        }
        Said::Held { asked, answered } => write_held(place, asked, answered, page, out),
    }
}

/// Writes the lines of all records, and answers their counts.
fn tell_records<K: Sink>(
    alloc: Global,
    asked: &AuditWords,
    bytes: &[u8],
    page: &mut Page,
    out: &mut K,
) -> Result<Tally, TellFault>
    ensures { TellingEnds (K.state out.old) (K.state out.new) asked.now bytes.now result }
{
    let mut explainer = Explainer::new(alloc, asked.primary, asked.secondary, bytes)?;
    let mut place = explainer.told();
    'records: while let Some(said) = explainer.explain_next()? {
        write_said(place, said, page, out)?;
        place = explainer.told();
    }
    Ok(explainer.tally())
}

/// Ends with the line of a file that is no capture, or without one where memory ran out.
fn end_fault<K: Sink>(fault: AuditFault, out: &mut K) -> u8
    ensures { FaultEnds (K.state out.old) (K.state out.new) fault result }
{
    match fault {
        AuditFault::Capture(fault) => end_no_capture(&NoCapture::Fault(fault), out),
        AuditFault::NoMemory => NO_MEMORY,
    }
}

/// Ends where the records weren't told to their end.
fn end_untold<K: Sink>(fault: TellFault, out: &mut K) -> u8
    ensures { TellFaultEnds (K.state out.old) (K.state out.new) fault result }
{
    match fault {
        TellFault::Failed => UNWRITABLE,
        TellFault::Fault(fault) => end_fault(fault, out),
    }
}

/// The command `explain IP1 IP2 FILE`.
pub fn explain_named<S: Source, K: Sink>(
    alloc: Global,
    asked: &AuditWords,
    file: &str,
    src: &mut S,
    out: &mut K,
) -> u8
    /// 0 on `explain`: FILE is a capture of at most 96 MiB in which nothing is unlicensed, and the lines of its records
    /// were written in order, each a piece of its own, and then that of the counts.
    ensures { ExplainEnds (S.state src.old) (S.state src.new) (K.state out.old) (K.state out.new) asked.now file.now result }
{
    let bytes = match read_named(alloc, src, file, CAPTURE_READ_MAX) {
        Ok(bytes) => bytes,
        Err(fault) => return u8::from(fault),
    };
    if bytes.len() > CAPTURE_MAX {
        return end_no_capture(&NoCapture::TooLong, out);
    }
    let mut page = Page::new();
    match tell_records(alloc, asked, &bytes, &mut page, out) {
        Ok(tally) => {
            put_tally_line(&tally, &mut page);
            end_with(out, page.as_slice(), tally_status(&tally))
        }
        Err(fault) => end_untold(fault, out),
    }
}
