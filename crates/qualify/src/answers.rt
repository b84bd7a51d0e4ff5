//! What an advertisement that is taken makes of a client.
ghost use Rattle.std.specs.Prelude.{◌≡◌, ◌+◌, ◌<◌, ◌≤◌, Some, None, length};
ghost use Rattle.indications.specs.Leads.{origin_in};
ghost use Rattle.td_base.specs.declared.datagram.TheConstants.{DATAGRAM_MAX};
ghost use Rattle.bubble.specs.Payloads.{payload_view};
ghost use Rattle.teredo_node.specs.Words.{drawn_words};
ghost use Rattle.td_base.specs.declared.millis.TheConstants.{CLOCK_END_MS};
ghost use Rattle.qualify.specs.declared.round.Round.{Round};
ghost use Rattle.qualify.specs.Turns.{interval_of, flags_word};
ghost use Rattle.qualify.specs.Advertisements.{advert_row, advert_words, flags_words};
ghost use Rattle.qualify.specs.Generator.{after_words, words_of};
ghost use Rattle.qualify.specs.Qualification.{address_told};
ghost use Rattle.qualify.specs.Qualifier.{IsSettings, AnswersBy, TurnsBy};
ghost use Rattle.qualify.specs.State.{qualification_of, asks_so, keeps_up};

use crate::advertisement::taken_origin;
use crate::draws::{draw_flags, draw_interval};
use crate::phase::Phase;
use crate::round::Round;
use crate::settings::Settings;
use crate::state::State;
use crate::upkeep::Upkeep;
use bubble::Payload;
use rand_chacha::ChaCha20Rng;
use td_base::{Ep, Ip6, Millis};
use teredo_addr::{TeredoAddr, embedded, flags_of, has_cone, to_ip6};
use teredo_node::Fate;

/// The fate of an advertisement that came from `from`, and what the client keeps then.
pub fn heard(
    settings: &Settings,
    state: State,
    from: Ep,
    payload: &Payload<'_>,
    now: Millis,
    rng: &mut ChaCha20Rng,
) -> (State, Fate)
    requires settings { IsSettings settings.now }
    requires bound { now.0 < CLOCK_END_MS }
    requires short { length payload.now.packet.body.now ≤ DATAGRAM_MAX }
    ensures fate { result.1 ≡ advert_row settings.now (qualification_of state) from (payload_view payload.now) }
    ensures turns { TurnsBy settings.now now.0 result.1 (drawn_words (advert_words settings.now result.1)
        (words_of rng.old)) (origin_in payload.now.lead) (qualification_of state) (qualification_of result.0) }
    ensures place { rng.new ≡ after_words (advert_words settings.now result.1) rng.old }
{
    match taken_origin(settings, &state, from, payload) {
        Ok(origin) => answered(settings, state, origin, now, rng),
        Err(fate) => (state, fate),
    }
}

/// What the phase decides, and what the client keeps then.
fn answered(
    settings: &Settings,
    state: State,
    origin: Ep,
    now: Millis,
    rng: &mut ChaCha20Rng,
) -> (State, Fate)
    requires settings { IsSettings settings.now }
    requires bound { now.0 < CLOCK_END_MS }
    ensures answer { AnswersBy settings.now now.0 origin (words_of rng.old) (qualification_of state) result.1 (qualification_of result.0) }
    ensures place { rng.new ≡ after_words (advert_words settings.now result.1) rng.old }
{
    match state {
        // qualified_cone: RFC 4380, section 5.2.1
        State::Cone(_) => {
            let upkeep = qualified(settings, true, origin, now, rng);
            (State::Qualified(upkeep), Fate::QualifiedCone)
        }
        // first_answer: RFC 4380, section 5.2.1
        State::Restricted(_) => (
            State::Secondary(Round::begun(now), origin),
            Fate::FirstAnswer,
        ),
        State::Secondary(_, kept) => compared(settings, kept, origin, now, rng),
        State::Qualified(upkeep) => refreshed(settings, upkeep, origin, now, rng),
        // no nonce is open in these
        State::Symmetric | State::OffLine => (state, Fate::Nonce),
    }
}

/// A client that becomes qualified.
fn qualified(
    settings: &Settings,
    cone: bool,
    origin: Ep,
    now: Millis,
    rng: &mut ChaCha20Rng,
) -> Upkeep
    requires settings { IsSettings settings.now }
    requires bound { now.0 < CLOCK_END_MS }
    ensures address { Some result.address ≡ address_told settings.now cone
        (flags_word settings.now (drawn_words (1 + flags_words settings.now) (words_of rng.old))) (Some origin) }
    ensures interval { result.interval ≡ interval_of settings.now (words_of rng.old 0) }
    ensures due { result.due.0 ≡ now.0 + result.interval }
    ensures nonce { result.nonce ≡ None }
    ensures place { rng.new ≡ after_words (1 + flags_words settings.now) rng.old }
{
    let interval = draw_interval(settings, rng);
    let word = draw_flags(settings, rng);
    Upkeep::of(address(settings, cone, word, origin), interval, now)
}

/// The address of a client whose server tells this origin, with the flags of this word.
fn address(settings: &Settings, cone: bool, word: Option<u32>, origin: Ep) -> Ip6
    ensures { Some result ≡ address_told settings.now cone word (Some origin) }
{
    to_ip6(TeredoAddr {
        server: settings.primary,
        flags: flags_of(cone, word),
        mapped: origin,
    })
}

/// The second answer tells the same origin as the first, or the NAT is symmetric.
fn compared(
    settings: &Settings,
    kept: Ep,
    origin: Ep,
    now: Millis,
    rng: &mut ChaCha20Rng,
) -> (State, Fate)
    requires settings { IsSettings settings.now }
    requires bound { now.0 < CLOCK_END_MS }
    ensures answer { (r : Round) → AnswersBy settings.now now.0 origin (words_of rng.old)
        (asks_so Phase.Secondary r (Some kept)) result.1 (qualification_of result.0) }
    ensures place { rng.new ≡ after_words (advert_words settings.now result.1) rng.old }
{
    if origin == kept {
        // qualified_restricted: RFC 4380, section 5.2.1
        let upkeep = qualified(settings, false, origin, now, rng);
        (State::Qualified(upkeep), Fate::QualifiedRestricted)
    } else {
        // symmetric: RFC 4380, section 5.2.1
        (State::Symmetric, Fate::Symmetric)
    }
}

/// The answer to a refresh tells the same origin as before, or the address changes with it.
fn refreshed(
    settings: &Settings,
    upkeep: Upkeep,
    origin: Ep,
    now: Millis,
    rng: &mut ChaCha20Rng,
) -> (State, Fate)
    requires bound { now.0 < CLOCK_END_MS }
    ensures answer { AnswersBy settings.now now.0 origin (words_of rng.old) (keeps_up upkeep) result.1 (qualification_of result.0) }
    ensures place { rng.new ≡ after_words (advert_words settings.now result.1) rng.old }
{
    let before = upkeep.address;
    if origin == embedded(before) {
        // same: RFC 4380, section 5.2.5
        let same = Upkeep::of(before, upkeep.interval, now);
        (State::Qualified(same), Fate::Same)
    } else {
        // changed: RFC 4380, section 5.2.5
        let after = address(
            settings,
            has_cone(before),
            draw_flags(settings, rng),
            origin,
        );
        (
            State::Qualified(Upkeep::of(after, upkeep.interval, now)),
            Fate::Changed,
        )
    }
}
