//! Leads out of bytes.
ghost use Rattle.std.specs.Prelude.{◌≡◌, ◌≢◌, ◌+◌, ◌<◌, ◌≤◌, length, IfOk, IfErr, IfSome, Ok};
ghost use Rattle.td_base.specs.Results.{Gives};
ghost use Rattle.indications.specs.declared.blocks.Lead.{Lead};
ghost use Rattle.indications.specs.declared.head.Head.TheVariants as heads;
ghost use Rattle.indications.specs.Indications.{head_at, auth_at, auth_of, nonce_place, lead_at};
ghost use Rattle.indications.specs.Places.{auth_to, origin_between, lead_by, AreThere};
ghost use Rattle.indications.specs.Blocks.{LeadBytes, AreSpansBefore};
ghost use Rattle.indications.specs.Faults.{IsFirstLeadFault};

use crate::blocks::{AUTH_HEAD, AUTH_TAIL, Auth, Lead, NONCE, ORIGIN, Origin};
use crate::fault::LeadFault;
use crate::head::{Head, head_of};
use crate::places::Places;
use td_base::{Span, field64};
use teredo_addr::show;

/// The indications at the front of the bytes, in front of a packet.
#[inline(always)]
pub fn read(bytes: &[u8]) -> Result<Lead, LeadFault>
    /// What is read stands there: an authentication, an origin, both in this order or none, and then the first byte of
    /// a packet.
    /// Leaves open: that a key or a value is right: an authentication is never checked.
    ensures found { IfOk result (λ lead. LeadBytes lead bytes.now) }
    /// Indications that stand in front of a packet are read.
    ensures only { (lead : Lead) → LeadBytes lead bytes.now → result ≡ Ok lead }
    /// A list that begins with no such indications is refused by its first fault, `Cut`, `Order` or `Kind`, with its
    /// place.
    ensures fault { IfErr result (λ e. IsFirstLeadFault e bytes.now) }
    // A packet's first byte is there.
    /// See `found`.
    ensures inside { IfOk result (λ lead. lead.at < length bytes.now) }
    /// See `found`.
    ensures spans { IfOk result (λ lead. IfSome lead.auth (AreSpansBefore lead.at)) }
    // The same as the rules in their order.
    /// See `fault`.
    ensures exact { result ≡ lead_at bytes.now }
{
    lead_of(bytes)
}

#[inline(always)]
fn lead_of(bytes: &[u8]) -> Result<Lead, LeadFault>
    ensures { result ≡ lead_at bytes.now }
{
    let places = places_of(bytes)?;
    if places.auth == 0 {
        return Ok(bare_lead(bytes, places));
    }
    Ok(auth_lead(bytes, places))
}

/// Where the indications at the front of the bytes stand, in front of a packet.
#[inline(always)]
#[tactic(auto, unfolding(crate::specs::Indications::lead_at, crate::specs::Indications::auth_at, crate::specs::Places::auth_to))]
pub fn places_of(bytes: &[u8]) -> Result<Places, LeadFault>
    /// `read` has two steps for a reader that builds more than indications: `places_of` says where the parts stand, or
    /// the first fault; `bare_lead` and `auth_lead` then give what stands there.
    /// Needs: the places are those that were found.
    ensures there { IfOk result (AreThere bytes.now) }
    // Where the authentication ends, if there is one.
    /// See `there`.
    ensures ends { IfOk result (λ p. auth_at bytes.now ≡ Ok (auth_to p.auth bytes.now, p.auth)) }
    /// See `there`.
    ensures exact { Gives (lead_by bytes.now) result (lead_at bytes.now) }
{
    if head_of(bytes, 0)? != Head::Auth {
        return behind(bytes, 0);
    }
    if bytes.len() < AUTH_HEAD {
        return Err(LeadFault::Cut { at: 0 });
    }
    let end = AUTH_HEAD + bytes[2] as usize + bytes[3] as usize + AUTH_TAIL;
    if bytes.len() < end {
        return Err(LeadFault::Cut { at: 0 });
    }
    behind(bytes, end)
}

/// The places where an authentication ends at `auth`, or there is none.
#[inline(always)]
#[tactic(auto, unfolding(crate::specs::Indications::lead_at, crate::specs::Indications::origin_at, crate::specs::Places::lead_by, crate::specs::Places::origin_between))]
fn behind(bytes: &[u8], auth: usize) -> Result<Places, LeadFault>
    requires inside { auth ≤ length bytes.now }
    requires first { auth_at bytes.now ≡ Ok (auth_to auth bytes.now, auth) }
    ensures same { IfOk result (λ p. p.auth ≡ auth) }
    ensures order { IfOk result (λ p. p.auth ≤ p.at) }
    ensures packet { IfOk result (λ p. p.at ≤ length bytes.now) }
    ensures exact { Gives (lead_by bytes.now) result (lead_at bytes.now) }
{
    match head_of(bytes, auth)? {
        Head::Packet => Ok(Places { auth, at: auth }),
        Head::Origin => behind_origin(bytes, auth),
        Head::Auth => Err(LeadFault::Order { at: auth }),
    }
}

/// The same where an origin begins there.
#[inline(always)]
#[tactic(auto, unfolding(crate::specs::Indications::lead_at, crate::specs::Indications::origin_at, crate::specs::Places::lead_by, crate::specs::Places::origin_between))]
fn behind_origin(bytes: &[u8], auth: usize) -> Result<Places, LeadFault>
    requires inside { auth ≤ length bytes.now }
    requires first { auth_at bytes.now ≡ Ok (auth_to auth bytes.now, auth) }
    requires second { head_at auth bytes.now ≡ Ok heads.Origin }
    ensures same { IfOk result (λ p. p.auth ≡ auth) }
    ensures order { IfOk result (λ p. p.auth ≤ p.at) }
    ensures packet { IfOk result (λ p. p.at ≤ length bytes.now) }
    ensures exact { Gives (lead_by bytes.now) result (lead_at bytes.now) }
{
    let at = auth + ORIGIN;
    if bytes.len() < at {
        return Err(LeadFault::Cut { at: auth });
    }
    if head_of(bytes, at)? != Head::Packet {
        return Err(LeadFault::Order { at });
    }
    Ok(Places { auth, at })
}

/// The lead of places without an authentication.
#[inline(always)]
#[tactic(auto, unfolding(crate::specs::Places::lead_by, crate::specs::Places::auth_to))]
pub fn bare_lead(bytes: &[u8], places: Places) -> Lead
    requires bare { places.auth ≡ 0 }
    requires packet { places.at ≤ length bytes.now }
    /// See `places_of`: `there`.
    ensures { result ≡ lead_by bytes.now places }
{
    Lead {
        auth: None,
        origin: origin_between(bytes, places),
        at: places.at,
    }
}

/// The lead of places with an authentication.
#[inline(always)]
#[tactic(auto, unfolding(crate::specs::Places::lead_by, crate::specs::Places::auth_to))]
pub fn auth_lead(bytes: &[u8], places: Places) -> Lead
    requires auth { places.auth ≢ 0 }
    requires there { nonce_place bytes.now + AUTH_TAIL ≤ length bytes.now }
    requires order { places.auth ≤ places.at }
    requires packet { places.at ≤ length bytes.now }
    /// See `places_of`: `there`.
    ensures { result ≡ lead_by bytes.now places }
{
    Lead {
        auth: Some(auth_of(bytes)),
        origin: origin_between(bytes, places),
        at: places.at,
    }
}

/// The authentication at the front.
#[inline(always)]
fn auth_of(bytes: &[u8]) -> Auth
    requires { nonce_place bytes.now + AUTH_TAIL ≤ length bytes.now }
    ensures { result ≡ auth_of bytes.now }
{
    let id = Span {
        at: AUTH_HEAD,
        len: bytes[2] as usize,
    };
    let value = Span {
        at: id.at + id.len,
        len: bytes[3] as usize,
    };
    let place = value.at + value.len;
    let nonce = field64(bytes, place);
    let confirmation = bytes[place + NONCE];
    Auth {
        id,
        value,
        nonce,
        confirmation,
    }
}

/// The origin between the places, where there is room for one.
#[inline(always)]
#[tactic(auto, unfolding(crate::specs::Places::origin_between))]
fn origin_between(bytes: &[u8], places: Places) -> Option<Origin>
    requires order { places.auth ≤ places.at }
    requires packet { places.at ≤ length bytes.now }
    ensures { result ≡ origin_between places.auth places.at bytes.now }
{
    if places.at < places.auth + ORIGIN {
        return None;
    }
    let ep = show(bytes, places.auth + 2);
    Some(Origin { ep })
}
