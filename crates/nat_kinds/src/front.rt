//! The front of a table: its first places, which are known to hold datagrams.
ghost use Rattle.std.specs.Prelude.{◌≡◌, ◌+◌, ◌-◌, ◌<◌, ◌≤◌, nat_lt, List, Option};
ghost use Rattle.nat_kinds.specs.Front.{IsFront, IsLiveFront};
ghost use Rattle.nat_kinds.specs.declared.outgoing.Outward.{Outward};

use crate::limits::MAPPINGS_MAX;
use td_base::Millis;

/// How many of the first places hold a datagram, and a moment before which none of these was sent. While that moment is
/// less than `idle` old all of them are live, and a search for a free port begins behind them.
#[derive(Clone, Copy, Debug)]
pub struct Front {
    pub len: usize,
    pub since: Millis,
}

impl Front {
    /// A front of no place.
    pub fn empty(since: Millis) -> Front
        ensures front { (places : List (Option Outward)) → IsFront places result }
        ensures since { result.since ≡ since }
    {
        Front { len: 0, since }
    }

    /// Whether no datagram of it is `idle` milliseconds old.
    fn is_young(&self, idle: u32, now: Millis) -> bool
        ensures { result ≡ nat_lt (now.0 - self.now.since.0) idle }
    {
        now.0.saturating_sub(self.since.0) < u64::from(idle)
    }

    /// Gives all its places up.
    pub fn clear(&mut self)
        ensures front { (places : List (Option Outward)) → IsFront places self.new }
        ensures since { self.new.since ≡ self.old.since }
    {
        self.len = 0;
    }

    /// Gives all its places up, unless each of them is known to be live.
    pub fn renew(&mut self, idle: u32, now: Millis)
        requires past { self.old.since.0 ≤ now.0 }
        ensures front { (places : List (Option Outward)) → IsFront places self.old → IsFront places self.new }
        ensures live { (places : List (Option Outward)) → IsFront places self.old → IsLiveFront idle now.0 places self.new }
        ensures past { self.new.since.0 ≤ now.0 }
    {
        if !self.is_young(idle, now) {
            *self = Front::empty(now);
        }
    }

    /// Takes one place more in, whose datagram was sent at `moment`.
    pub fn take_in(&mut self, moment: Millis)
        requires few { self.old.len < MAPPINGS_MAX }
        ensures len { self.new.len ≡ self.old.len + 1 }
        ensures since { self.new.since.0 ≤ self.old.since.0 }
        ensures moment { self.new.since.0 ≤ moment.0 }
    {
        self.len += 1;
        if moment.0 < self.since.0 {
            self.since = moment;
        }
    }
}
