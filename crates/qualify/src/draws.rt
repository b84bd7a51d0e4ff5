//! What is drawn of a generator's words.
ghost use Rattle.std.specs.Prelude.{◌≡◌, ◌≤◌, if◌then◌else◌, Some, None};
ghost use Rattle.teredo_node.specs.Words.{nonce_from};
ghost use Rattle.qualify.specs.Generator.{words_of, after_words};
ghost use Rattle.qualify.specs.Turns.{interval_of};
ghost use Rattle.qualify.specs.declared.limits.TheConstants.{INTERVAL_MIN_MS};
ghost use Rattle.qualify.specs.Qualifier.{IsSettings};
ghost use Rattle.qualify.specs.Advertisements.{advert_words, flags_words};

use crate::settings::Settings;
use rand_chacha::ChaCha20Rng;
use rand_core::utils::NextWord;
use teredo_node::Fate;

/// How many words a nonce is.
pub const NONCE_WORDS: u8 = 2;

/// How many words an interval is.
pub const INTERVAL_WORDS: u8 = 1;

/// How many words an address' random flags are.
pub const FLAGS_WORDS: u8 = 1;

/// A nonce: two words, the first one the high half.
#[tactic(auto, unfolding(crate::specs::Generator::words_of, crate::specs::Generator::after_words))]
pub fn draw_nonce(rng: &mut ChaCha20Rng) -> u64
    /// A nonce is two words, the first one the high half; an interval is one, brought between two times; flags are one,
    /// or none. The generator's place moves on by just these words.
    ensures value { result ≡ nonce_from (words_of rng.old) }
    /// See `value`.
    ensures place { rng.new ≡ after_words 2 rng.old }
{
    let high = rng.next_word();
    let low = rng.next_word();
    u64::from(high) << 32 | u64::from(low)
}

/// The time to a refresh, in milliseconds: one word, brought between the shortest and the longest time.
#[tactic(auto, unfolding(crate::specs::Generator::words_of, crate::specs::Generator::after_words, crate::specs::Turns::interval_of))]
pub fn draw_interval(settings: &Settings, rng: &mut ChaCha20Rng) -> u32
    requires settings { IsSettings settings.now }
    /// See `draw_nonce`: `value`.
    ensures value { result ≡ interval_of settings.now (words_of rng.old 0) }
    /// See `draw_nonce`: `value`.
    ensures least { INTERVAL_MIN_MS ≤ result }
    /// See `draw_nonce`: `value`.
    ensures place { rng.new ≡ after_words 1 rng.old }
{
    let word = rng.next_word();
    settings.low + word % (settings.high - settings.low + 1)
}

/// The word of an address' flags, where they are random: the next one.
#[tactic(auto, unfolding(crate::specs::Generator::words_of, crate::specs::Generator::after_words))]
pub fn draw_flags(settings: &Settings, rng: &mut ChaCha20Rng) -> Option<u32>
    /// See `draw_nonce`: `value`.
    ensures value { result ≡ (if settings.now.random then Some (words_of rng.old 0) else None) }
    /// See `draw_nonce`: `value`.
    ensures place { rng.new ≡ after_words (flags_words settings.now) rng.old }
{
    if !settings.random {
        return None;
    }
    Some(rng.next_word())
}

/// How many words an address' flags draw.
fn words_of_flags(settings: &Settings) -> u8
    ensures value { result ≡ flags_words settings.now }
    ensures most { result ≤ FLAGS_WORDS }
{
    if settings.random { FLAGS_WORDS } else { 0 }
}

/// How many words an advertisement of this fate drew: those of an interval, where the client became qualified, and those
/// of flags, where it set an address.
pub fn words_of_advert(settings: &Settings, fate: Fate) -> u8
    /// How many words an advertisement drew is told by its fate and by whether flags are random. There is one for an
    /// interval where the client became qualified, and one for random flags where it got an address.
    ensures { result ≡ advert_words settings.now fate }
{
    match fate {
        Fate::QualifiedCone => INTERVAL_WORDS + words_of_flags(settings),
        Fate::QualifiedRestricted => INTERVAL_WORDS + words_of_flags(settings),
        Fate::Changed => words_of_flags(settings),
        _ => 0,
    }
}
