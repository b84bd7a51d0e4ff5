//! Whom the inside endpoints asked, and when last.
ghost use Rattle.std.specs.Prelude.{◌≡◌, ℕ, ◌+◌, ◌<◌, ◌≤◌, if◌then◌else◌, true, Some, OnOk};
ghost use Rattle.std.specs.HashMap.{spare};
ghost use Rattle.td_base.specs.declared.millis.Millis.{Millis};
ghost use Rattle.nat_kinds.specs.Way.{same_way};
ghost use Rattle.nat_kinds.specs.Places.{unless_in};
ghost use Rattle.nat_kinds.specs.Asked.{asked_at, asked_with, is_recent, keeps_asked, passes, IsOnce, IsNoted, IsSwept};
ghost use Rattle.nat_kinds.specs.declared.way.Way.{Way};

use crate::incoming::Incoming;
use crate::kind::NatKind;
use crate::outgoing::Outward;
use crate::settings::NatSettings;
use crate::way::{Way, asked_of};
use std::alloc::AllocError;
use std::collections::HashMap;
use td_base::{Ep, Millis};

/// The latest moment at which each was asked.
pub type Asked = HashMap<Way, Millis>;

/// Whether a kind of NAT looks at it.
fn keeps_asked(kind: NatKind) -> bool
    ensures { result ≡ keeps_asked kind }
{
    match kind {
        NatKind::Restricted | NatKind::Port => true,
        NatKind::Cone | NatKind::Symmetric => false,
    }
}

/// When this was asked last.
fn last_asked(asked: &Asked, way: Way) -> Option<Millis>
    ensures { result ≡ asked_at asked.now.entries way }
{
    asked.get(&way).copied()
}

/// When this was asked last, had a datagram more been sent.
fn last_asked_with(asked: &Asked, kind: NatKind, sent: &Outward, way: Way) -> Option<Millis>
    ensures { result ≡ asked_at (asked_with kind sent.now asked.now.entries) way }
{
    if way == asked_of(kind, sent.inside, sent.dst) {
        return Some(sent.moment);
    }
    last_asked(asked, way)
}

/// Whether a moment is less than `idle` milliseconds ago.
fn is_recent(moment: Option<Millis>, idle: u32, now: Millis) -> bool
    ensures { result ≡ is_recent idle now.0 moment }
{
    match moment {
        Some(moment) => now.0.saturating_sub(moment.0) < u64::from(idle),
        None => false,
    }
}

/// Whether a mapping lets a datagram in: RFC 3489, section 5.
pub fn passes(asked: &Asked, settings: &NatSettings, incoming: Incoming, mapping: &Outward) -> bool
    ensures { result ≡ passes settings.now.kind settings.now.idle incoming.moment.0 asked.now.entries incoming.src mapping.now }
{
    match settings.kind {
        NatKind::Cone => true,
        NatKind::Restricted | NatKind::Port => {
            let way = asked_of(settings.kind, mapping.inside, incoming.src);
            is_recent(last_asked(asked, way), settings.idle, incoming.moment)
        }
        NatKind::Symmetric => mapping.dst == incoming.src,
    }
}

/// Whether it does, had a datagram more been sent.
pub fn passes_with(
    asked: &Asked,
    settings: &NatSettings,
    incoming: Incoming,
    mapping: &Outward,
    sent: &Outward,
) -> bool
    ensures { result
        ≡ passes settings.now.kind settings.now.idle incoming.moment.0 (asked_with settings.now.kind sent.now asked.now.entries) incoming.src mapping.now }
{
    match settings.kind {
        NatKind::Cone => true,
        NatKind::Restricted | NatKind::Port => {
            let way = asked_of(settings.kind, mapping.inside, incoming.src);
            let moment = last_asked_with(asked, settings.kind, sent, way);
            is_recent(moment, settings.idle, incoming.moment)
        }
        NatKind::Symmetric => mapping.dst == incoming.src,
    }
}

/// Takes out what was asked too long ago.
fn take_out_old(asked: &mut Asked, idle: u32, now: Millis)
    ensures recent { (n : ℕ) → now.0 ≤ n → (way : Way) →
        is_recent idle n (asked_at asked.new.entries way) ≡ is_recent idle n (asked_at asked.old.entries way) }
    ensures kept { (way : Way) (m : Millis) → asked_at asked.new.entries way ≡ Some m →
        (asked_at asked.old.entries way ≡ Some m) × (is_recent idle now.0 (Some m) ≡ true) }
    ensures once { IsOnce asked.new.entries }
{
    asked.retain(|_, moment| now.0.saturating_sub(moment.0) < u64::from(idle));
}

/// Looks for what was asked too long ago and takes it out, once in `idle` milliseconds. So each asking is looked at
/// twice at most.
pub fn sweep(asked: &mut Asked, swept: &mut Millis, idle: u32, now: Millis)
    requires past { swept.old.0 ≤ now.0 }
    requires kept { (way : Way) (m : Millis) → asked_at asked.old.entries way ≡ Some m → swept.old.0 ≤ m.0 + idle }
    ensures recent { (n : ℕ) → now.0 ≤ n → (way : Way) →
        is_recent idle n (asked_at asked.new.entries way) ≡ is_recent idle n (asked_at asked.old.entries way) }
    ensures kept { (way : Way) (m : Millis) → asked_at asked.new.entries way ≡ Some m → asked_at asked.old.entries way ≡ Some m }
    ensures once { IsOnce asked.old.entries → IsOnce asked.new.entries }
    ensures swept { IsSwept idle now.0 swept.new.0 asked.new.entries }
{
    if now.0.saturating_sub(swept.0) < u64::from(idle) {
        return;
    }
    take_out_old(asked, idle, now);
    *swept = now;
}

/// Takes the memory that one more wants, where the kind of NAT looks at it.
pub fn room(asked: &mut Asked, kind: NatKind) -> Result<(), AllocError>
    ensures same { (way : Way) → asked_at asked.new.entries way ≡ asked_at asked.old.entries way }
    ensures once { IsOnce asked.old.entries → IsOnce asked.new.entries }
    ensures ok { OnOk result (keeps_asked kind ≡ true → 0 < spare asked.new) }
{
    if !keeps_asked(kind) {
        return Ok(());
    }
    asked.reserve(1)
}

/// Puts a moment at a way, for which there is room.
fn put(asked: &mut Asked, way: Way, now: Millis)
    requires room { 0 < spare asked.old }
    ensures put { (w : Way) → asked_at asked.new.entries w ≡ (if same_way way w then Some now else asked_at asked.old.entries w) }
    ensures once { IsOnce asked.new.entries }
{
    let _ = asked.insert(way, now);
}

/// Keeps that a datagram asked its destination, where the kind of NAT looks at it.
pub fn note(asked: &mut Asked, kind: NatKind, sent: Outward)
    requires room { keeps_asked kind ≡ true → 0 < spare asked.old }
    ensures noted { IsNoted kind asked.old.entries asked.new.entries sent }
    ensures once { IsOnce asked.old.entries → IsOnce asked.new.entries }
{
    if !keeps_asked(kind) {
        return;
    }
    put(asked, asked_of(kind, sent.inside, sent.dst), sent.moment);
}

/// Takes out what an inside endpoint asked.
pub fn forget_asked(asked: &mut Asked, inside: Ep)
    ensures forgets { (way : Way) → asked_at asked.new.entries way ≡ unless_in inside way (asked_at asked.old.entries way) }
    ensures once { IsOnce asked.new.entries }
{
    asked.retain(|way, _| way.inside != inside);
}
