//! The words `audit IP1 IP2 FILE` and `explain IP1 IP2 FILE`.
ghost use Rattle.std.specs.Prelude.{◌≡◌, ℕ, List, [], ◌∷◌, Some, IfSome};
ghost use Rattle.commands.specs.AuditWords.{AsksToAudit};

use crate::serve_words::address;
use td_base::Ip4;

/// The two addresses of the server whose capture it is.
#[derive(Clone, Copy, Debug)]
pub struct AuditWords {
    pub primary: Ip4,
    pub secondary: Ip4,
}

/// The server that the words behind `audit` or `explain` name.
pub fn audit_words(primary: &str, secondary: &str) -> Option<AuditWords>
    ensures found { IfSome result (λ asked. (command file : List ℕ) → AsksToAudit command (command ∷ primary.now ∷ secondary.now ∷ file ∷ []) asked file) }
    ensures only { (asked : AuditWords) (command file : List ℕ) → AsksToAudit command (command ∷ primary.now ∷ secondary.now ∷ file ∷ []) asked file
        → result ≡ Some asked }
{
    let primary = address(primary)?;
    let secondary = address(secondary)?;
    if primary == secondary {
        return None;
    }
    Some(AuditWords { primary, secondary })
}
