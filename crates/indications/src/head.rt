//! What begins at a place.
ghost use Rattle.std.specs.Prelude.{◌≡◌, ◌≤◌, length};
ghost use Rattle.indications.specs.Indications.{head_at};

use crate::fault::LeadFault;

/// What begins at a place.
#[derive(Clone, Copy, Debug, PartialEq, Eq)]
pub enum Head {
    Packet,
    Auth,
    Origin,
}

/// What begins at a place, by its first two bytes.
#[inline(always)]
#[tactic(auto, unfolding(crate::specs::Indications::head_at))]
pub fn head_of(bytes: &[u8], at: usize) -> Result<Head, LeadFault>
    requires { at ≤ length bytes.now }
    ensures { result ≡ head_at at bytes.now }
{
    if at >= bytes.len() {
        return Err(LeadFault::Cut { at });
    }
    let byte = bytes[at];
    if byte >> 4 == 6 {
        return Ok(Head::Packet);
    }
    if byte != 0 {
        return Err(LeadFault::Kind { at, byte });
    }
    if at + 1 >= bytes.len() {
        return Err(LeadFault::Cut { at });
    }
    match bytes[at + 1] {
        0 => Ok(Head::Origin),
        1 => Ok(Head::Auth),
        byte => Err(LeadFault::Kind { at: at + 1, byte }),
    }
}
