//! The words `gen SEED COUNT`.
ghost use Rattle.std.specs.Prelude.{◌≡◌, ◌≤◌, ℕ, [], ◌∷◌, Some, codes, decimal, IfSome};
ghost use Rattle.events.specs.declared.event.TheConstants.{EVENTS_MAX};
ghost use Rattle.commands.specs.declared.gen_words.TheConstants.{SEED_MAX};
ghost use Rattle.commands.specs.GenWords.{AsksToGenerate};

use events::EVENTS_MAX;
use td_base::read_number;

/// The largest seed, as that of a scenario's text.
pub const SEED_MAX: u64 = 9_223_372_036_854_775_807;

/// What the words ask for: the scenario of a seed, with so many events.
#[derive(Clone, Copy, Debug)]
pub struct GenWords {
    pub seed: u64,
    pub count: u32,
}

/// The seed that a word is.
pub(crate) fn seed_word(word: &str) -> Option<u64>
    ensures found { IfSome result (λ seed. (seed ≤ SEED_MAX) × (word.now ≡ decimal seed)) }
    ensures only { (seed : ℕ) → seed ≤ SEED_MAX → word.now ≡ decimal seed → result ≡ Some seed }
{
    read_number(word.as_bytes(), SEED_MAX).ok()
}

/// The number of events that a word is.
fn count_word(word: &str) -> Option<u64>
    ensures found { IfSome result (λ count. (count ≤ EVENTS_MAX) × (word.now ≡ decimal count)) }
    ensures only { (count : ℕ) → count ≤ EVENTS_MAX → word.now ≡ decimal count → result ≡ Some count }
{
    read_number(word.as_bytes(), EVENTS_MAX as u64).ok()
}

/// What the words behind `gen` ask for.
pub fn gen_words(seed: &str, count: &str) -> Option<GenWords>
    ensures found { IfSome result (λ asked. AsksToGenerate (codes "gen" ∷ seed.now ∷ count.now ∷ []) asked) }
    ensures only { (asked : GenWords) → AsksToGenerate (codes "gen" ∷ seed.now ∷ count.now ∷ []) asked → result ≡ Some asked }
{
    let seed = seed_word(seed)?;
    let count = count_word(count)?;
    Some(GenWords {
        seed,
        count: count as u32,
    })
}
