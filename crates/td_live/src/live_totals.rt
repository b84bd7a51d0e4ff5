//! How many attempts of a session succeeded and failed.
ghost use Rattle.std.specs.Prelude.{◌≡◌, ◌≤◌, ◌+◌, ◌-◌, length, count_ones};
ghost use Rattle.teredo_node.specs.declared.step.TheConstants.{SENDS_MAX};
ghost use Rattle.td_live.specs.declared.live_totals.TheConstants.{ATTEMPTS_END};

use teredo_node::{SENDS_MAX, Step};

/// More attempts than any session makes: a turn has at most sixteen.
pub(crate) const ATTEMPTS_END: u64 = 1 << 40;

/// How many attempts to send succeeded and failed.
#[derive(Clone, Copy, Debug, PartialEq, Eq)]
pub struct LiveTotals {
    pub sent: u64,
    pub failed: u64,
}

impl LiveTotals {
    pub const NONE: LiveTotals = LiveTotals { sent: 0, failed: 0 };

    // Counts the attempts of a step, of which these failed.
    pub(crate) fn count(&mut self, step: &Step, failed: u8)
        requires few { self.old.sent + self.old.failed ≤ ATTEMPTS_END }
        requires sends { count_ones failed ≤ length step.now.sends }
        ensures counted { self.new ≡ record {
          sent = self.old.sent + (length step.now.sends - count_ones failed);
          failed = self.old.failed + count_ones failed;
        } }
        ensures some { self.new.sent + self.new.failed ≤ self.old.sent + self.old.failed + SENDS_MAX }
    {
        let lost = u64::from(failed.count_ones());
        self.sent += step.count() as u64 - lost;
        self.failed += lost;
    }
}
