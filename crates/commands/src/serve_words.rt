//! The words `serve IP1 IP2 COUNT IDLES`.
ghost use Rattle.std.specs.Prelude.{◌≡◌, ◌≤◌, ℕ, [], ◌∷◌, Some, codes, decimal, IfSome};
ghost use Rattle.td_base.specs.Ip4.{IsIp4};
ghost use Rattle.td_base.specs.Texts.{ip4_text};
ghost use Rattle.commands.specs.ServeWords.{Asks};

use td_base::{Ip4, read_ip4, read_number};
use td_turns::TURNS_MAX;

/// What the words ask for: the two addresses to serve on, and when to end.
#[derive(Clone, Copy, Debug)]
pub struct ServeWords {
    pub primary: Ip4,
    pub secondary: Ip4,
    /// It ends when so many arrivals were taken,
    pub count: u64,
    /// or so many turns in a row were idle.
    pub idles: u64,
}

/// The address that a word is.
pub(crate) fn address(word: &str) -> Option<Ip4>
    ensures found { IfSome result (λ ip. IsIp4 ip × (word.now ≡ ip4_text ip)) }
    ensures only { (ip : Ip4) → IsIp4 ip → word.now ≡ ip4_text ip → result ≡ Some ip }
{
    read_ip4(word.as_bytes()).ok()
}

/// The number of turns that a word is.
pub(crate) fn turns(word: &str) -> Option<u64>
    ensures found { IfSome result (λ number. (number ≤ TURNS_MAX) × (word.now ≡ decimal number)) }
    ensures only { (number : ℕ) → number ≤ TURNS_MAX → word.now ≡ decimal number → result ≡ Some number }
{
    read_number(word.as_bytes(), TURNS_MAX).ok()
}

/// What the words behind `serve` ask for.
pub fn serve_words(primary: &str, secondary: &str, count: &str, idles: &str) -> Option<ServeWords>
    ensures found { IfSome result (λ asked. Asks (codes "serve" ∷ primary.now ∷ secondary.now ∷ count.now ∷ idles.now ∷ []) asked) }
    ensures only { (asked : ServeWords) → Asks (codes "serve" ∷ primary.now ∷ secondary.now ∷ count.now ∷ idles.now ∷ []) asked → result ≡ Some asked }
{
    let primary = address(primary)?;
    let secondary = address(secondary)?;
    let count = turns(count)?;
    let idles = turns(idles)?;
    if primary == secondary {
        return None;
    }
    if idles == 0 {
        return None;
    }
    Some(ServeWords {
        primary,
        secondary,
        count,
        idles,
    })
}
