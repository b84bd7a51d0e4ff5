//! What a client keeps of its qualification.
ghost use Rattle.std.specs.Prelude.{◌≡◌, ◌<◌, None, option_map, is_some, IfSome};
ghost use Rattle.td_base.specs.declared.millis.TheConstants.{CLOCK_END_MS};
ghost use Rattle.qualify.specs.declared.settings.Settings.{Settings};
ghost use Rattle.qualify.specs.declared.limits.TheConstants.{DUE_END_MS};

use crate::phase::Phase;
use crate::round::Round;
use crate::settings::Settings;
use crate::upkeep::Upkeep;
use td_base::{Ep, Ip6, Millis};

/// A phase with what the client keeps in it.
#[derive(Clone, Copy, Debug)]
pub enum State {
    Cone(Round),
    Restricted(Round),
    /// With the origin that the first answer told.
    Secondary(Round, Ep),
    Qualified(Upkeep),
    Symmetric,
    OffLine,
}

impl State {
    ghost use Rattle.qualify.specs.Solicitations.{is_due, is_qualified};
    ghost use Rattle.qualify.specs.Advertisements.{is_one_of};
    ghost use Rattle.qualify.specs.Qualifier.{has_due};
    ghost use Rattle.qualify.specs.State.{qualification_of};
    ghost use Rattle.qualify.specs.Turns.{renews};
    ghost use Rattle.qualify.specs.Qualification.{first_phase};
    ghost use Rattle.qualify.specs.Laws.{Tidings, fresh, turned};

    /// A client that starts now: its first phase begins, and asks at once.
    #[tactic(auto, unfolding(crate::specs::Qualification::first_phase))]
    pub fn begun(settings: &Settings, now: Millis) -> State
        requires bound { now.0 < CLOCK_END_MS }
        ensures { qualification_of result ≡ fresh (first_phase settings.now) now.0 }
    {
        if settings.cone_try {
            State::Cone(Round::begun(now))
        } else {
            State::Restricted(Round::begun(now))
        }
    }

    pub fn phase(&self) -> Phase
        ensures { result ≡ (qualification_of self.now).phase }
    {
        match self {
            State::Cone(_) => Phase::Cone,
            State::Restricted(_) => Phase::Restricted,
            State::Secondary(..) => Phase::Secondary,
            State::Qualified(_) => Phase::Qualified,
            State::Symmetric => Phase::Symmetric,
            State::OffLine => Phase::OffLine,
        }
    }

    pub fn due(&self) -> Option<Millis>
        ensures value { option_map (λ m. m.0) result ≡ (qualification_of self.now).due }
        ensures some { is_some result ≡ has_due (qualification_of self.now).phase }
        ensures bound { IfSome result (λ m. m.0 < DUE_END_MS) }
    {
        match self {
            State::Cone(round) | State::Restricted(round) | State::Secondary(round, _) => {
                Some(round.due)
            }
            State::Qualified(upkeep) => Some(upkeep.due),
            State::Symmetric | State::OffLine => None,
        }
    }

    /// Whether something is due by now.
    pub fn is_due(&self, now: Millis) -> bool
        ensures { result ≡ is_due now.0 (qualification_of self.now).due }
    {
        match self.due() {
            Some(due) => due.0 <= now.0,
            None => false,
        }
    }

    pub fn address(&self) -> Option<Ip6>
        ensures value { result ≡ (qualification_of self.now).address }
        ensures some { is_some result ≡ is_qualified (qualification_of self.now).phase }
    {
        match self {
            State::Qualified(upkeep) => Some(upkeep.address),
            _ => None,
        }
    }

    /// Whether a nonce is one that an advertisement may have.
    pub fn has_open(&self, nonce: Option<u64>) -> bool
        ensures { result ≡ is_one_of (qualification_of self.now).open_nonces nonce }
    {
        let Some(nonce) = nonce else {
            return false;
        };
        match self {
            State::Cone(round) | State::Restricted(round) | State::Secondary(round, _) => {
                round.nonces.contains(nonce)
            }
            State::Qualified(upkeep) => upkeep.is_open(nonce),
            State::Symmetric | State::OffLine => false,
        }
    }

    /// After word of the server: the next refresh is an interval from now.
    pub fn renewed(self, now: Millis) -> State
        requires bound { now.0 < CLOCK_END_MS }
        ensures { (s : Settings) (t : Tidings) → t.moment ≡ now.0 → t.turn ≡ renews → t.interval ≡ None →
            qualification_of result ≡ turned s t (qualification_of self) }
    {
        match self {
            State::Qualified(upkeep) => State::Qualified(upkeep.renewed(now)),
            _ => self,
        }
    }
}
