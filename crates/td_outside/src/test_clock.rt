//! A clock of four moments.
ghost use Rattle.std.specs.Prelude.{◌≡◌, ◌≤◌, ◌<◌, ◌-◌, ◌+◌, ◌^◌, ◌++◌, ℕ, List, [], ◌∷◌, length, drop, take, map};
ghost use Rattle.std.specs.Prelude.{replicate, min, nat_lt, Some, slice_index, IsTrue, if◌then◌else◌};
ghost use Rattle.td_base.specs.declared.millis.TheConstants.{CLOCK_END_MS};
ghost use Rattle.td_outside.specs.Moves.{Gains};
ghost use Rattle.td_outside.specs.TestClock.{Timetable, IsTimetable, moment_of, clock_after};

use crate::Clock;
use std::marker::Model;
use td_base::Millis;

/// A clock that gives its four moments in turn, and the last one for ever. It tells what it gave as long as fewer than
/// 2^64 - 1 calls were made.
#[derive(Drop)]
pub struct TestClock {
    moments: [Millis; 4],
    // the place of the next moment, and how often the last one was given
    at: usize,
    again: u64,
    last: Millis,
}

impl Model for TestClock {
    ghost use Rattle.std.specs.Prelude.{◌≡◌, ◌<◌, ◌+◌, ◌++◌, length, drop, take, map, replicate, min};
    ghost use Rattle.td_base.specs.declared.millis.Millis.{Millis};
    ghost use Rattle.td_outside.specs.Causes.{count_end};
    ghost use Rattle.td_outside.specs.TestClock.{Timetable, IsTimetable, moment_of, told_given};

    ghost Value = { Timetable };

    ghost view = { λ s. record {
      last = s.last.0;
      coming = drop s.at s.moments;
      made = min (s.at + s.again) count_end;
      gave = told_given (min (s.at + s.again) count_end)
          (map (λ (m : Millis). m.0) (take s.at s.moments ++ replicate s.again (moment_of (drop s.at s.moments))));
    } };

    ghost invariant = { λ s. (s.at < length s.moments) × IsTimetable s.last.0 (drop s.at s.moments)
        × (s.at + 1 < length s.moments → s.again ≡ 0) };
}

impl TestClock {
    /// A clock that has given no moment yet.
    pub fn new(moments: [Millis; 4]) -> TestClock
        requires order { IsTimetable 0 moments }
        /// The tests' clock gives its four moments in turn, and the last one for ever; it tells them while its calls
        /// can be counted.
        /// Needs: the moments don't fall, and are below 2^48 ms.
        ensures made { result ≡ record { last = 0; coming = moments; made = 0; gave = Some [] } }
    {
        TestClock {
            moments,
            at: 0,
            again: 0,
            last: Millis(0),
        }
    }
}

impl Clock for TestClock {
    ghost state = { λ s. record { last = s.last; gave = s.gave } };

    fn now(&mut self) -> Millis
        ensures later { self.old.last ≤ result.0 }
        ensures bound { result.0 < CLOCK_END_MS }
        ensures given { result ≡ moment_of self.old.coming }
        ensures state { self.new ≡ clock_after self.old }
    {
        let moment = self.moments[self.at];
        if self.at + 1 < self.moments.len() {
            self.at += 1;
        } else {
            self.again = self.again.saturating_add(1);
        }
        self.last = moment;
        moment
    }
}
