//! The last line of a run.
ghost use Rattle.commands.specs.LastLine.{LineEnds};

use crate::statuses::UNWRITABLE;
use sink_lines::write_line;
use td_outside::{Failed, Sink};

/// Writes a line, and answers this status, or that the sink failed.
pub fn end_with<K: Sink>(out: &mut K, line: &[u8], status: u8) -> u8
    /// A run that ends with a line answers its status where the line was written, and 5 where the sink's count rose; a
    /// front of the line was written then.
    ensures { LineEnds (K.state out.old) (K.state out.new) line.now status result }
{
    match write_line(out, line) {
        Ok(()) => status,
        Err(Failed) => UNWRITABLE,
    }
}
