//! What bytes are written to.
ghost use Rattle.std.specs.Prelude.{◌≤◌, ◌<◌, length, IfOk};
ghost use Rattle.std.specs.Io.KnownBytes.{WriteAppends};
ghost use Rattle.td_outside.specs.Causes.{HasCause};
ghost use Rattle.td_outside.specs.Moves.{Gains};
ghost use Rattle.td_outside.specs.Sink.{SinkState};

use crate::Failed;

/// Something that bytes are written to. It has no flush: a failure is known inside the call.
pub trait Sink {
    /// What it tells, and its count of faults.
    ghost state: { Self → SinkState };

    /// Takes a front of the piece, and answers its length. Taking nothing of a piece that isn't empty is a failure.
    fn write(&mut self, piece: &[u8]) -> Result<usize, Failed>
        /// `write` takes a first part of the piece, some of it where it isn't empty, and what the sink holds grows by
        /// just that.
        /// Needs: told.
        /// Leaves open: that a terminal or a disk has them.
        ensures bound { IfOk result (λ n. n ≤ length piece.now) }
        /// See `bound`.
        ensures some { IfOk result (λ n. 0 < length piece.now → 0 < n) }
        /// See `bound`.
        ensures bytes { WriteAppends (state self.old).holds (state self.new).holds result piece.now }
        /// Each piece that a sink was handed is told, in order, also where it failed or took only a first part.
        /// Needs: told.
        ensures handed { Gains (state self.old).pieces (state self.new).pieces piece.now }
        /// See `Source::open`: `cause`.
        ensures cause { HasCause (state self.old).faults (state self.new).faults result };
}
