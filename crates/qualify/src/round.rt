//! A phase that asks.
ghost use Rattle.std.specs.Prelude.{◌≡◌, ◌+◌, ◌<◌, ◌≤◌, [], ◌∷◌, length, IsTrue, nat_lt};
ghost use Rattle.td_base.specs.declared.millis.TheConstants.{CLOCK_END_MS};
ghost use Rattle.qualify.specs.declared.limits.TheConstants.{SOLICITATION_GAP_MS, SOLICITATIONS_MAX, DUE_END_MS};

use crate::limits::{SOLICITATION_GAP_MS, SOLICITATIONS_MAX};
use crate::nonces::Nonces;
use td_base::Millis;

/// When a phase asks again or ends, and the nonces of its solicitations so far.
#[derive(Clone, Copy, Debug)]
pub struct Round {
    pub due: Millis,
    pub nonces: Nonces,
    ghost soon: { due.0 < DUE_END_MS },
}

impl Round {
    ghost use Rattle.qualify.specs.State.{nonces_of};

    /// A phase that begins now, and asks at once.
    pub fn begun(now: Millis) -> Round
        requires bound { now.0 < CLOCK_END_MS }
        ensures due { result.due ≡ now }
        ensures nonces { nonces_of result.nonces ≡ [] }
    {
        Round {
            due: now,
            nonces: Nonces::new(),
        }
    }

    /// Whether it sends another solicitation.
    pub fn asks_again(&self) -> bool
        ensures { result ≡ nat_lt (length (nonces_of self.now.nonces)) SOLICITATIONS_MAX }
    {
        self.nonces.len() < SOLICITATIONS_MAX
    }

    /// After a solicitation with this nonce.
    pub fn asked(self, now: Millis, nonce: u64) -> Round
        requires bound { now.0 < CLOCK_END_MS }
        requires room { length (nonces_of self.nonces) < SOLICITATIONS_MAX }
        ensures due { result.due.0 ≡ now.0 + SOLICITATION_GAP_MS }
        ensures nonces { nonces_of result.nonces ≡ nonce ∷ nonces_of self.nonces }
    {
        Round {
            due: Millis(now.0 + SOLICITATION_GAP_MS),
            nonces: self.nonces.with(nonce),
        }
    }
}
