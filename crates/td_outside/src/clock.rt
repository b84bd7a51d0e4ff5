//! The time.
ghost use Rattle.std.specs.Prelude.{◌≡◌, ◌≤◌, ◌<◌};
ghost use Rattle.td_base.specs.declared.millis.TheConstants.{CLOCK_END_MS};
ghost use Rattle.td_outside.specs.Clock.{ClockState};
ghost use Rattle.td_outside.specs.Moves.{Gains};

use td_base::Millis;

/// What gives the time since a start of its own.
pub trait Clock {
    /// The moment that it gave last, and all that it gave, where it tells them.
    ghost state: { Self → ClockState };

    /// The present moment, never less than before.
    fn now(&mut self) -> Millis
        /// A clock never falls, and stays below 2^48 ms. Where it tells what it gave, each reading is one more.
        /// Needs: for the list of moments, told.
        /// Leaves open: that time passes.
        ensures later { (state self.old).last ≤ result.0 }
        /// See `later`.
        ensures bound { result.0 < CLOCK_END_MS }
        /// See `later`.
        ensures given { (state self.new).last ≡ result.0 }
        /// See `later`.
        ensures told { Gains (state self.old).gave (state self.new).gave result.0 };
}
