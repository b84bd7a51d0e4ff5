//! The latest tries of a peer.
ghost use Rattle.std.specs.Prelude.{◌≡◌, ◌≤◌, ◌<◌, ◌||◌, nat_le, [], ◌∷◌, take, length, filter, map};
ghost use Rattle.std.specs.List.{list_any};
ghost use Rattle.td_base.specs.declared.millis.TheConstants.{CLOCK_END_MS};
ghost use Rattle.peer_list.specs.Listed.{is_younger};
ghost use Rattle.peer_list.specs.Judged.{next_try};
ghost use Rattle.peer_list.specs.Bounds.{AreEarly};

use crate::limits::{LISTED_MS, TRIES_MAX, TRY_GAP_MS};
use std::marker::Model;
use td_base::Millis;

/// The moments of the latest tries, the latest first.
#[derive(Drop)]
pub(crate) struct Tries {
    // the first `count` are the tries
    moments: [Millis; TRIES_MAX],
    count: usize,
}

impl Model for Tries {
    ghost use Rattle.std.specs.Prelude.{◌≡◌, ◌≤◌, ℕ, List, map, take, length};
    ghost use Rattle.td_base.specs.declared.millis.Millis.{Millis};
    ghost use Rattle.peer_list.specs.declared.limits.TheConstants.{TRIES_MAX};
    ghost use Rattle.peer_list.specs.Bounds.{AreEarly};

    ghost Value = { List ℕ };

    ghost view = { λ s. map (λ (m : Millis). m.0) (take s.count s.moments) };

    ghost invariant = { λ s. (s.count ≤ TRIES_MAX) × (length s.moments ≡ TRIES_MAX) × AreEarly (map (λ (m : Millis). m.0) (take s.count s.moments)) };
}

/// Whether a moment is less than so many milliseconds ago.
pub(crate) fn is_young(ms: u64, now: Millis, moment: Millis) -> bool
    ensures { result ≡ is_younger ms now.0 moment.0 }
{
    now.0.saturating_sub(moment.0) < ms
}

impl Tries {
    pub(crate) fn new() -> Tries
        ensures { result ≡ [] }
    {
        Tries {
            moments: [Millis(0); TRIES_MAX],
            count: 0,
        }
    }

    pub(crate) fn as_slice(&self) -> &[Millis]
        ensures value { map (λ m. m.0) result.now ≡ self.now }
        ensures most { length result.now ≤ TRIES_MAX }
        ensures early { AreEarly self.now }
    {
        &self.moments[..self.count]
    }

    pub(crate) fn push(&mut self, now: Millis)
        requires { now.0 < CLOCK_END_MS }
        ensures { self.new ≡ take TRIES_MAX (now.0 ∷ self.old) }
    {
        let [first, second, third, _] = self.moments;
        self.moments = [now, first, second, third];
        self.count = (self.count + 1).min(TRIES_MAX);
    }

    pub(crate) fn clear(&mut self)
        ensures { self.new ≡ [] }
    {
        self.count = 0;
    }

    /// Whether `TRIES_MAX` of them are as young as a listing may be.
    pub(crate) fn is_spent(&self, now: Millis) -> bool
        ensures { result ≡ nat_le TRIES_MAX (length (filter (is_younger LISTED_MS now.0) self.now)) }
    {
        let mut young: usize = 0;
        for moment in self.as_slice() {
            if is_young(LISTED_MS, now, *moment) {
                young += 1;
            }
        }
        TRIES_MAX <= young
    }

    /// Whether one of them is too young for another.
    pub(crate) fn is_recent(&self, now: Millis) -> bool
        ensures { result ≡ list_any (is_younger TRY_GAP_MS now.0) (filter (is_younger LISTED_MS now.0) self.now) }
    {
        for moment in self.as_slice() {
            if is_young(TRY_GAP_MS, now, *moment) {
                return true;
            }
        }
        false
    }

    /// When the next one is due: at once, where there is none.
    pub(crate) fn next(&self) -> Millis
        ensures { result.0 ≡ next_try self.now }
    {
        match self.as_slice() {
            [] => Millis(0),
            [latest, ..] => Millis(latest.0 + TRY_GAP_MS),
        }
    }
}
