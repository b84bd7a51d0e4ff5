//! The audit of a file.
ghost use Rattle.commands.specs.Audit.{AuditEnds};

use crate::audit_line::{NoCapture, put_verdict_line, verdict_status};
use crate::audit_words::AuditWords;
use crate::capture_file::{CAPTURE_MAX, CAPTURE_READ_MAX, end_no_capture};
use crate::last_line::end_with;
use crate::source_text::read_named;
use crate::statuses::NO_MEMORY;
use std::alloc::Global;
use td_audit::{AuditFault, audit};
use td_base::LineBuf;
use td_outside::{Sink, Source};

/// The command `audit IP1 IP2 FILE`.
pub fn audit_named<S: Source, K: Sink>(
    alloc: Global,
    asked: &AuditWords,
    file: &str,
    src: &mut S,
    out: &mut K,
) -> u8
    /// 0 on `audit`: FILE is a capture of at most 96 MiB, each datagram from the server in it is licensed, and the line
    /// of the true counts was written.
    ensures { AuditEnds (S.state src.old) (S.state src.new) (K.state out.old) (K.state out.new) asked.now file.now result }
{
    let bytes = match read_named(alloc, src, file, CAPTURE_READ_MAX) {
        Ok(bytes) => bytes,
        Err(fault) => return u8::from(fault),
    };
    if bytes.len() > CAPTURE_MAX {
        return end_no_capture(&NoCapture::TooLong, out);
    }
    match audit(alloc, asked.primary, asked.secondary, &bytes) {
        Ok(verdict) => {
            let mut line = LineBuf::new();
            put_verdict_line(&verdict, &mut line);
            end_with(out, line.as_slice(), verdict_status(&verdict))
        }
        Err(AuditFault::Capture(fault)) => end_no_capture(&NoCapture::Fault(fault), out),
        Err(AuditFault::NoMemory) => NO_MEMORY,
    }
}
