//! Lines that are written to a sink.
ghost use Rattle.std.specs.Prelude.{[], ◌∷◌};
ghost use Rattle.sink_lines.specs.Lines.{Writing};

use td_outside::{Failed, Sink};

/// Writes a line: the whole line is a piece, and each further piece is what is left of it.
pub fn write_line<K: Sink>(out: &mut K, line: &[u8]) -> Result<(), Failed>
    /// - Each line begins a piece of its own, and each further piece is what is left of it. The page of `show` counts
    ///   as one line, and so does a record of a capture.
    ///   Needs: told.
    /// - See `Writing`: `ok`.
    ensures { Writing (K.state out.old) (K.state out.new) (line.now ∷ []) result }
{
    let mut at = 0;
    while at < line.len() {
        at += out.write(&line[at..])?;
    }
    Ok(())
}
