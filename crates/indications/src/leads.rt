//! What a rule asks of a lead.
ghost use Rattle.std.specs.Prelude.{◌≡◌};
ghost use Rattle.indications.specs.Leads.{is_keyed, is_confirmed, nonce_of, origin_in};

use crate::blocks::Lead;
use td_base::Ep;

/// Whether an authentication has an identifier or a value, which only an earlier agreement could explain.
#[inline(always)]
#[tactic(auto, unfolding(crate::specs::Leads::is_keyed))]
pub fn is_keyed(lead: &Lead) -> bool
    /// Whether an authentication is keyed or confirmed, its nonce, and the origin's endpoint.
    ensures { result ≡ is_keyed lead.now }
{
    match lead.auth {
        None => false,
        Some(auth) => auth.id.len != 0 || auth.value.len != 0,
    }
}

/// Whether an authentication asks for a new key: its confirmation isn't 0.
#[inline(always)]
#[tactic(auto, unfolding(crate::specs::Leads::is_confirmed))]
pub fn is_confirmed(lead: &Lead) -> bool
    /// See `is_keyed`.
    ensures { result ≡ is_confirmed lead.now }
{
    match lead.auth {
        None => false,
        Some(auth) => auth.confirmation != 0,
    }
}

/// The nonce, where there is an authentication.
#[inline(always)]
pub fn nonce_of(lead: &Lead) -> Option<u64>
    /// See `is_keyed`.
    ensures { result ≡ nonce_of lead.now }
{
    match lead.auth {
        None => None,
        Some(auth) => Some(auth.nonce),
    }
}

/// The endpoint in the origin, where there is one.
#[inline(always)]
pub fn origin_in(lead: &Lead) -> Option<Ep>
    /// See `is_keyed`.
    ensures { result ≡ origin_in lead.now }
{
    match lead.origin {
        None => None,
        Some(origin) => Some(origin.ep),
    }
}
