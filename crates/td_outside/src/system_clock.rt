//! The clock of the system.
ghost use Rattle.std.specs.Prelude.{◌≡◌, ◌≤◌, ◌<◌, ℕ, None};
ghost use Rattle.td_base.specs.declared.millis.TheConstants.{CLOCK_END_MS};

use crate::Clock;
use std::marker::Model;
use std::time::{Duration, Instant};
use std::{io, time};
use td_base::{CLOCK_END_MS, Millis};

/// The milliseconds since its own first call. Where the system's clock fails or goes back, it repeats its last
/// moment. Contracts see the moment that it gave last.
#[derive(Drop)]
pub struct SystemClock<'a, R: time::Clock> {
    rt: &'a R,
    start: Option<Instant>,
    last: u64,
}

impl<'a, R: time::Clock> Model for SystemClock<'a, R> {
    ghost Value = { ℕ };

    ghost view = { λ s. s.last };

    ghost invariant = { λ s. s.last < CLOCK_END_MS };
}

impl<'a, R: time::Clock> SystemClock<'a, R> {
    /// A clock that has given no moment yet.
    pub fn new(rt: &'a R) -> Self
        /// See `FileSource::new`.
        ensures { result ≡ 0 }
    {
        SystemClock {
            rt,
            start: None,
            last: 0,
        }
    }

    // The time since the first call that succeeded.
    fn elapsed(&mut self) -> io::Result<Duration>
        ensures same { self.new ≡ self.old }
    {
        if let Some(start) = self.start {
            return start.elapsed(self.rt);
        }
        self.start = Some(Instant::now(self.rt)?);
        Ok(Duration::ZERO)
    }
}

// The whole milliseconds of a duration, as far as a clock goes.
fn millis_of(elapsed: Duration) -> u64
    ensures { result < CLOCK_END_MS }
{
    let last = CLOCK_END_MS - 1;
    match u64::try_from(elapsed.as_millis()) {
        Ok(millis) => millis.min(last),
        Err(_) => last,
    }
}

impl<R: time::Clock> Clock for SystemClock<'_, R> {
    ghost state = { λ last. record { last = last; gave = None } };

    fn now(&mut self) -> Millis {
        if let Ok(elapsed) = self.elapsed() {
            self.last = self.last.max(millis_of(elapsed));
        }
        Millis(self.last)
    }
}
