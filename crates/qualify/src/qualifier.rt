//! A client's qualification.
ghost use Rattle.std.specs.Prelude.{◌≡◌, ◌≤◌, ◌<◌, ℕ, [], length, false, is_some, option_map, IfSome};
ghost use Rattle.td_base.specs.declared.millis.TheConstants.{CLOCK_END_MS};
ghost use Rattle.td_base.specs.declared.datagram.TheConstants.{DATAGRAM_MAX};
ghost use Rattle.bubble.specs.Payloads.{payload_view};
ghost use Rattle.teredo_node.specs.Journal.{Entry, Journal, with_entry};
ghost use Rattle.qualify.specs.declared.limits.TheConstants.{DUE_END_MS};
ghost use Rattle.qualify.specs.Qualification.{qualification};
ghost use Rattle.qualify.specs.Solicitations.{is_due, is_qualified, step_at};
ghost use Rattle.qualify.specs.Advertisements.{advert_row, advert_words};
ghost use Rattle.qualify.specs.Generator.{words_of, after_words};
ghost use Rattle.qualify.specs.Qualifier.{IsSettings, QualifierStandsFor, IsOfAdvert, IsOfTick, IsOfServer, has_due};

use crate::answers::heard;
use crate::phase::Phase;
use crate::settings::Settings;
use crate::state::State;
use crate::ticks::ticked;
use bubble::Payload;
use rand_chacha::ChaCha20Rng;
use std::marker::Model;
use td_base::{Ep, Ip6, Millis};
use teredo_node::{Fate, Step};

/// A client's phase, its address, and what is due of them.
#[derive(Drop)]
pub struct Qualifier {
    settings: Settings,
    state: State,
}

// No clause sees a field that nothing reads: so it is its parts, and no byte more.
const _: () = prove_eq!(size_of::<Qualifier>(), size_of::<(Settings, State)>());

impl Model for Qualifier {
    ghost use Rattle.qualify.specs.Qualifier.{QualifierState, IsSettings};
    ghost use Rattle.qualify.specs.State.{qualification_of};

    ghost Value = { QualifierState };

    ghost view = { λ a. record { settings = a.settings; now = qualification_of a.state } };

    ghost invariant = { λ a. IsSettings a.settings };
}

impl Qualifier {
    /// A client that starts now: its first phase begins, and asks at once.
    pub fn start(settings: Settings, now: Millis) -> Qualifier
        requires settings { IsSettings settings }
        requires bound { now.0 < CLOCK_END_MS }
        /// A qualifier that starts stands for the journal without entries, in the first phase of its settings, and
        /// tells how it was set up.
        /// Needs: a shortest time of at least 1,000 ms, and no longest one below it; a moment of a clock.
        ensures settings { result.settings ≡ settings }
        /// See `settings`.
        ensures stands { QualifierStandsFor result (record { start = now.0; entries = [] }) }
    {
        Qualifier {
            settings,
            state: State::begun(&settings, now),
        }
    }

    /// Those that it was started with.
    pub fn settings(&self) -> &Settings
        /// See `Qualifier::start`: `settings`.
        ensures value { result.now ≡ self.now.settings }
        /// See `Qualifier::start`: `settings`.
        ensures sound { IsSettings result.now }
    {
        &self.settings
    }

    pub fn phase(&self) -> Phase
        /// Phase, address and due moment are those of the journal. There is an address exactly in phase Qualified, and
        /// something is due exactly outside Symmetric and OffLine.
        ensures { result ≡ self.now.now.phase }
    {
        self.state.phase()
    }

    /// The client's address, exactly while it is qualified.
    pub fn address(&self) -> Option<Ip6>
        /// See `Qualifier::phase`.
        ensures value { result ≡ self.now.now.address }
        /// See `Qualifier::phase`.
        ensures qualified { is_some result ≡ is_qualified self.now.now.phase }
    {
        self.state.address()
    }

    /// When the phase or the refresh is due; nothing is, in the two phases that last.
    pub fn due(&self) -> Option<Millis>
        /// See `Qualifier::phase`.
        ensures value { option_map (λ m. m.0) result ≡ self.now.now.due }
        /// See `Qualifier::phase`.
        ensures some { is_some result ≡ has_due self.now.now.phase }
        /// See `Qualifier::phase`.
        ensures bound { IfSome result (λ m. m.0 < DUE_END_MS) }
    {
        self.state.due()
    }

    /// Takes an advertisement that came from `from`, or drops it. It draws an interval where the client becomes
    /// qualified, and a word of flags after it where it gets an address with random ones.
    pub fn on_advert(
        &mut self,
        now: Millis,
        from: Ep,
        payload: &Payload<'_>,
        rng: &mut ChaCha20Rng,
    ) -> Fate
        requires bound { now.0 < CLOCK_END_MS }
        requires short { length payload.now.packet.body.now ≤ DATAGRAM_MAX }

        /// An advertisement has the fate of the first line of its table that holds. This holds for every journal that
        /// it stands for, calls that come late included.
        /// Needs: a moment of a clock, a body of at most 1,400 bytes.
        /// Leaves open: that the sender is the server; that nonces differ or can't be guessed.
        ensures fate { (j : Journal) → QualifierStandsFor self.old j →
            result ≡ advert_row self.old.settings (qualification self.old.settings j) from (payload_view payload.now) }
        /// After an advertisement the qualifier stands for the journal with that entry. There is a clause for each
        /// part: phase, due moment, solicitations, open nonces, kept origin, address and interval. It is stated in
        /// `Qualifier.antt`, with the journal's in `Qualification.antt` and `Turns.antt`.
        ensures stands { (j : Journal) (e : Entry) → QualifierStandsFor self.old j →
            IsOfAdvert self.old.settings now.0 (payload_view payload.now) result (words_of rng.old) e → QualifierStandsFor self.new (with_entry j e) }

        /// An advertisement draws an interval where the client becomes qualified, then the word of random flags where
        /// the client gets an address, and otherwise nothing.
        ensures place { rng.new ≡ after_words (advert_words self.old.settings result) rng.old }
        /// See `stands`.
        ensures settings { self.new.settings ≡ self.old.settings }
    {
        let (state, fate) = heard(&self.settings, self.state, from, payload, now, rng);
        self.state = state;
        fate
    }

    /// A bubble came through the server: the next refresh is an interval from now.
    pub fn heard_server(&mut self, now: Millis)
        requires bound { now.0 < CLOCK_END_MS }
        /// A bubble through the server that is answered puts the next refresh off. Outside phase Qualified it changes
        /// nothing.
        /// Needs: a moment of a clock.
        ensures stands { (j : Journal) (e : Entry) → QualifierStandsFor self.old j →
            IsOfServer now.0 e → QualifierStandsFor self.new (with_entry j e) }
        /// See `stands`.
        ensures settings { self.new.settings ≡ self.old.settings }
    {
        self.state = self.state.renewed(now);
    }

    /// Does what is due by now, or nothing, with the fate `Idle`: the phase's solicitation or its end, or the refresh.
    /// A solicitation draws a nonce, and one that refreshes an interval after it.
    pub fn on_tick(&mut self, now: Millis, rng: &mut ChaCha20Rng, step: &mut Step)
        requires bound { now.0 < CLOCK_END_MS }

        /// A tick does what is due, or nothing: the solicitation with its bytes, the end of a phase, the refresh. This
        /// holds for every journal that it stands for, at any moment; `does` says it of its own state.
        /// Needs: a moment of a clock.
        /// Leaves open: that anybody ticks.
        ensures step { (j : Journal) → QualifierStandsFor self.old j →
            step.new ≡ step_at self.old.settings (qualification self.old.settings j) now.0 (words_of rng.old) }
        /// After a tick the qualifier stands for the journal with that entry, and nothing is due any more.
        ensures stands { (j : Journal) (e : Entry) → QualifierStandsFor self.old j →
            IsOfTick now.0 step.new (words_of rng.old) e → QualifierStandsFor self.new (with_entry j e) }
        // Whatever it stands for, it is what its own state gives.
        /// See `step`.
        ensures does { step.new ≡ step_at self.old.settings self.old.now now.0 (words_of rng.old) }
        // Nothing is due at this moment any more.
        /// See `stands`.
        ensures done { is_due now.0 self.new.now.due ≡ false }

        /// A tick draws what its step says, the next words of the generator.
        ensures place { rng.new ≡ after_words step.new.drawn rng.old }
        /// See `stands`.
        ensures settings { self.new.settings ≡ self.old.settings }
    {
        self.state = ticked(&self.settings, self.state, now, rng, step);
    }
}
