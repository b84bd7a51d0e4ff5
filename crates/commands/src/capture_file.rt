//! A capture in a file: how long it may be, and how a run ends where a file is none.
ghost use Rattle.commands.specs.AuditLine.{no_capture_line};
ghost use Rattle.commands.specs.LastLine.{LineEnds};

use crate::audit_line::{NoCapture, put_no_capture_line};
use crate::last_line::end_with;
use crate::statuses::NO_CAPTURE;
use td_base::LineBuf;
use td_outside::Sink;

/// The most bytes of a capture that is audited or explained: 96 MiB.
pub const CAPTURE_MAX: usize = 100_663_296;

/// How many bytes of a file are read at most: those of the longest capture, and one that shows that it is longer.
pub const CAPTURE_READ_MAX: usize = CAPTURE_MAX + 1;

/// Writes the line that says why a file is no capture, and answers 11, or 5 where the sink failed.
pub(crate) fn end_no_capture<K: Sink>(why: &NoCapture, out: &mut K) -> u8
    ensures { LineEnds (K.state out.old) (K.state out.new) (no_capture_line why.now) NO_CAPTURE result }
{
    let mut line = LineBuf::new();
    put_no_capture_line(why, &mut line);
    end_with(out, line.as_slice(), NO_CAPTURE)
}
