//! What is opened by a name and then read.
ghost use Rattle.std.specs.Prelude.{◌≡◌, ◌≤◌, ◌<◌, length, IfOk, OnOk, OnErr, MatchResult};
ghost use Rattle.std.specs.Io.KnownBytes.{IsAtEnd, ReadConsumes};
ghost use Rattle.td_outside.specs.Causes.{HasCause};
ghost use Rattle.td_outside.specs.Moves.{Stays, Gains, RisesBy};
ghost use Rattle.td_outside.specs.Source.{SourceState};

use crate::Failed;

/// Something that is opened by a name and then read. Before the first `open`, and after one that failed, a read
/// gives nothing.
pub trait Source {
    /// What it tells, and its count of faults.
    ghost state: { Self → SourceState };

    /// Begins to read the named thing.
    fn open(&mut self, name: &str) -> Result<(), Failed>
        /// After an `open` that answers `Ok`, what is left is what the name stands for; after one that fails, nothing;
        /// no call changes what a name stands for.
        /// Needs: told.
        /// Leaves open: what a file held.
        ensures opened { OnOk result ((state self.new).left ≡ (state self.old).stands_for name.now) }
        /// See `opened`.
        ensures shut { OnErr result (IsAtEnd (state self.new).left) }
        /// See `opened`.
        ensures names { (state self.new).stands_for ≡ (state self.old).stands_for }
        /// Each name that a source was asked to open is told, in order, and how many bytes were read in all.
        /// Needs: told.
        ensures asked { Gains (state self.old).openings (state self.new).openings name.now }
        /// See `asked`.
        ensures count { Stays (state self.old).taken (state self.new).taken }
        /// A call fails only where its count of faults rose in it; one that answers `Ok` leaves the count; no count
        /// falls.
        /// Leaves open: that anything fails or doesn't, of the real thing.
        ensures cause { HasCause (state self.old).faults (state self.new).faults result };

    /// Reads the next bytes, none only at the end.
    fn read(&mut self, buf: &mut [u8]) -> Result<usize, Failed>
        requires { 0 < length buf.old }
        /// `read` gives the next bytes, at most as many as fit, and takes them from what is left; 0 is the end.
        /// Needs: told; room in the buffer.
        /// Leaves open: how many bytes one call gives.
        ensures bound { IfOk result (λ n. n ≤ length buf.new) }
        /// See `bound`.
        ensures bytes { ReadConsumes (state self.old).left (state self.new).left result buf.new }
        /// See `Source::open`: `opened`.
        ensures names { (state self.new).stands_for ≡ (state self.old).stands_for }
        /// See `Source::open`: `asked`.
        ensures asked { Stays (state self.old).openings (state self.new).openings }
        /// See `Source::open`: `asked`.
        ensures count { MatchResult result
            (λ n. RisesBy (state self.old).taken (state self.new).taken n)
            (λ _. Stays (state self.old).taken (state self.new).taken) }
        /// See `Source::open`: `cause`.
        ensures cause { HasCause (state self.old).faults (state self.new).faults result };
}
