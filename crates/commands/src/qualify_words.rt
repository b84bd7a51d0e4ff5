//! The words `qualify INSIDE IP1 IP2 SEED TURNS`.
ghost use Rattle.std.specs.Prelude.{◌≡◌, ◌≤◌, ℕ, [], ◌∷◌, Some, codes, IfSome};
ghost use Rattle.td_live.specs.declared.asked.Asked.{Asked};
ghost use Rattle.commands.specs.QualifyWords.{AsksToQualify};

use crate::gen_words::seed_word;
use crate::serve_words::{address, turns};
use td_live::Asked;

/// What the words behind `qualify` ask for.
pub fn qualify_words(
    inside: &str,
    primary: &str,
    secondary: &str,
    seed: &str,
    most: &str,
) -> Option<Asked>
    ensures found { IfSome result (λ asked. AsksToQualify (codes "qualify" ∷ inside.now ∷ primary.now ∷ secondary.now ∷ seed.now ∷ most.now ∷ []) asked) }
    ensures only { (asked : Asked) → AsksToQualify (codes "qualify" ∷ inside.now ∷ primary.now ∷ secondary.now ∷ seed.now ∷ most.now ∷ []) asked
        → result ≡ Some asked }
{
    let inside = address(inside)?;
    let primary = address(primary)?;
    let secondary = address(secondary)?;
    let seed = seed_word(seed)?;
    let turns = turns(most)?;
    if primary == secondary {
        return None;
    }
    if turns == 0 {
        return None;
    }
    Some(Asked {
        inside,
        primary,
        secondary,
        seed,
        turns,
    })
}
