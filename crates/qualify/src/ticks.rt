//! What a client does where its phase or its refresh is due.
ghost use Rattle.std.specs.Prelude.{◌≡◌, ◌<◌, ◌∷◌, [], Some, None, false};
ghost use Rattle.td_base.specs.declared.millis.TheConstants.{CLOCK_END_MS};
ghost use Rattle.td_base.specs.Ep.{server_ep};
ghost use Rattle.teredo_node.specs.Step.{just};
ghost use Rattle.teredo_node.specs.Sends.{send, sending};
ghost use Rattle.teredo_node.specs.Words.{nonce_from};
ghost use Rattle.qualify.specs.Generator.{after_words, words_of};
ghost use Rattle.qualify.specs.Qualifier.{IsSettings, TicksBy};
ghost use Rattle.qualify.specs.Solicitations.{due_step, is_due, solicitation, step_at};
ghost use Rattle.qualify.specs.State.{qualification_of, asks_so, keeps_up};

use crate::draws::{INTERVAL_WORDS, NONCE_WORDS, draw_interval, draw_nonce};
use crate::phase::Phase;
use crate::round::Round;
use crate::settings::Settings;
use crate::solicitation::solicitation;
use crate::state::State;
use crate::upkeep::Upkeep;
use rand_chacha::ChaCha20Rng;
use td_base::{Ep, Ip4, Millis, Side};
use teredo_addr::has_cone;
use teredo_node::{Fate, Step};

/// What is due first, or nothing; and what the client keeps then.
pub fn ticked(
    settings: &Settings,
    state: State,
    now: Millis,
    rng: &mut ChaCha20Rng,
    step: &mut Step,
) -> State
    requires settings { IsSettings settings.now }
    requires bound { now.0 < CLOCK_END_MS }
    ensures tick { let q = qualification_of state in let w = words_of rng.old in
        TicksBy settings.now now.0 w (step_at settings.now q now.0 w) q step.new (qualification_of result) }
    ensures done { is_due now.0 (qualification_of result).due ≡ false }
    ensures place { rng.new ≡ after_words step.new.drawn rng.old }
{
    if !state.is_due(now) {
        step.reset(Fate::Idle);
        return state;
    }
    match state {
        State::Cone(round) => cone(settings, round, now, rng, step),
        State::Restricted(round) => restricted(settings, round, now, rng, step),
        State::Secondary(round, kept) => secondary(settings, round, kept, now, rng, step),
        State::Qualified(upkeep) => refresh(settings, upkeep, now, rng, step),
        State::Symmetric | State::OffLine => {
            step.reset(Fate::Idle);
            state
        }
    }
}

/// Phase Cone asks, or the next phase does.
fn cone(
    settings: &Settings,
    round: Round,
    now: Millis,
    rng: &mut ChaCha20Rng,
    step: &mut Step,
) -> State
    requires bound { now.0 < CLOCK_END_MS }
    ensures tick { let q = asks_so Phase.Cone round None in let w = words_of rng.old in
        TicksBy settings.now now.0 w (due_step settings.now q w) q step.new (qualification_of result) }
    ensures done { is_due now.0 (qualification_of result).due ≡ false }
    ensures place { rng.new ≡ after_words step.new.drawn rng.old }
{
    if round.asks_again() {
        // rs_cone: RFC 4380, section 5.2.1
        let nonce = solicit(settings, Fate::RsCone, settings.primary, true, rng, step);
        State::Cone(round.asked(now, nonce))
    } else {
        // rs_restricted: RFC 4380, section 5.2.1
        let nonce = solicit(
            settings,
            Fate::RsRestricted,
            settings.primary,
            false,
            rng,
            step,
        );
        State::Restricted(Round::begun(now).asked(now, nonce))
    }
}

/// Phase Restricted asks, or ends.
fn restricted(
    settings: &Settings,
    round: Round,
    now: Millis,
    rng: &mut ChaCha20Rng,
    step: &mut Step,
) -> State
    requires bound { now.0 < CLOCK_END_MS }
    ensures tick { let q = asks_so Phase.Restricted round None in let w = words_of rng.old in
        TicksBy settings.now now.0 w (due_step settings.now q w) q step.new (qualification_of result) }
    ensures done { is_due now.0 (qualification_of result).due ≡ false }
    ensures place { rng.new ≡ after_words step.new.drawn rng.old }
{
    if round.asks_again() {
        // rs_restricted: RFC 4380, section 5.2.1
        let nonce = solicit(
            settings,
            Fate::RsRestricted,
            settings.primary,
            false,
            rng,
            step,
        );
        State::Restricted(round.asked(now, nonce))
    } else {
        off_line(step)
    }
}

/// Phase Secondary asks, or ends.
fn secondary(
    settings: &Settings,
    round: Round,
    kept: Ep,
    now: Millis,
    rng: &mut ChaCha20Rng,
    step: &mut Step,
) -> State
    requires bound { now.0 < CLOCK_END_MS }
    ensures tick { let q = asks_so Phase.Secondary round (Some kept) in let w = words_of rng.old in
        TicksBy settings.now now.0 w (due_step settings.now q w) q step.new (qualification_of result) }
    ensures done { is_due now.0 (qualification_of result).due ≡ false }
    ensures place { rng.new ≡ after_words step.new.drawn rng.old }
{
    if round.asks_again() {
        // rs_secondary: RFC 4380, section 5.2.1
        let nonce = solicit(
            settings,
            Fate::RsSecondary,
            settings.secondary,
            false,
            rng,
            step,
        );
        State::Secondary(round.asked(now, nonce), kept)
    } else {
        off_line(step)
    }
}

/// No answer came.
fn off_line(step: &mut Step) -> State
    ensures state { result ≡ State.OffLine }
    ensures step { step.new ≡ just Fate.OffLine }
{
    // offline: RFC 4380, section 5.2.1
    step.reset(Fate::OffLine);
    State::OffLine
}

/// A qualified client asks for its mapping to be kept.
fn refresh(
    settings: &Settings,
    upkeep: Upkeep,
    now: Millis,
    rng: &mut ChaCha20Rng,
    step: &mut Step,
) -> State
    requires settings { IsSettings settings.now }
    requires bound { now.0 < CLOCK_END_MS }
    ensures tick { let q = keeps_up upkeep in let w = words_of rng.old in
        TicksBy settings.now now.0 w (due_step settings.now q w) q step.new (qualification_of result) }
    ensures done { is_due now.0 (qualification_of result).due ≡ false }
    ensures place { rng.new ≡ after_words step.new.drawn rng.old }
{
    // refresh: RFC 4380, section 5.2.5
    let nonce = solicit(
        settings,
        Fate::Refresh,
        settings.primary,
        has_cone(upkeep.address),
        rng,
        step,
    );
    let interval = draw_interval(settings, rng);
    step.set_drawn(NONCE_WORDS + INTERVAL_WORDS);
    State::Qualified(upkeep.refreshed(now, nonce, interval))
}

/// Sends a solicitation, and answers its nonce.
fn solicit(
    settings: &Settings,
    fate: Fate,
    to: Ip4,
    cone: bool,
    rng: &mut ChaCha20Rng,
    step: &mut Step,
) -> u64
    ensures nonce { result ≡ nonce_from (words_of rng.old) }
    ensures step { step.new ≡ record (sending fate (send (server_ep to) (solicitation settings.now cone (nonce_from (words_of rng.old))) ∷ [])) { drawn = 2 } }
    ensures place { rng.new ≡ after_words 2 rng.old }
{
    let nonce = draw_nonce(rng);
    step.reset(fate);
    step.push(
        Side::Primary,
        Ep::of_server(to),
        &solicitation(settings, cone, nonce),
    );
    step.set_drawn(NONCE_WORDS);
    nonce
}
