//! Where the place of a key is: an index over the table.
ghost use Rattle.std.specs.Prelude.{◌≡◌, ℕ, ◌+◌, ◌<◌, ◌≤◌, if◌then◌else◌, true, length, Some, IfNone, IfSome, OnOk};
ghost use Rattle.std.specs.HashMap.{spare};
ghost use Rattle.nat_kinds.specs.Mappings.{has_key};
ghost use Rattle.nat_kinds.specs.Way.{same_way};
ghost use Rattle.nat_kinds.specs.Places.{place_at, indexed, unless_at, unless_way, unless_in, has_key_in, IsPlace};
ghost use Rattle.nat_kinds.specs.Places.{IsNext, HasRoom, IsIndexed, IsPutIn, IsLiveAt, HasNoLive};
ghost use Rattle.nat_kinds.specs.declared.outgoing.Outward.{Outward};
ghost use Rattle.nat_kinds.specs.declared.way.Way.{Way};
ghost use Rattle.nat_kinds.specs.declared.limits.TheConstants.{FIRST_PORT, MAPPINGS_MAX};

use crate::kind::NatKind;
use crate::outgoing::Outward;
use crate::places::{at, set, widen};
use crate::settings::NatSettings;
use crate::way::{Way, key_of};
use std::alloc::AllocError;
use std::collections::HashMap;
use td_base::{Ep, Millis};

/// The port of the place that holds each key.
pub type Index = HashMap<Way, u16>;

/// The port that a live mapping of the key holds.
pub fn held_port(
    places: &[Option<Outward>],
    index: &Index,
    settings: &NatSettings,
    now: Millis,
    inside: Ep,
    dst: Ep,
) -> Option<u16>
    requires indexed { IsIndexed settings.now.kind places.now index.now.entries }
    ensures live { IfSome result (IsLiveAt settings.now.kind settings.now.idle now.0 places.now inside dst) }
    ensures none { IfNone result (HasNoLive settings.now.kind settings.now.idle now.0 places.now inside dst) }
{
    let Some(port) = port_of(index, key_of(settings.kind, inside, dst)) else {
        return None;
    };
    let Some(sent) = at(places, port) else {
        return None;
    };
    if !sent.is_young(settings.idle, now) {
        return None;
    }
    Some(port)
}

/// The port at which the index has a key.
#[inline(always)]
fn port_of(index: &Index, key: Way) -> Option<u16>
    ensures { result ≡ indexed index.now.entries key }
{
    index.get(&key).copied()
}

/// Takes out of the table what a key holds.
fn clear_key(places: &mut [Option<Outward>], index: &Index, key: Way)
    requires places { (port : ℕ) → indexed index.now.entries key ≡ Some port → IsPlace places.old port }
    ensures cleared { (p : ℕ) → place_at places.new p ≡ unless_at (indexed index.now.entries key) p (place_at places.old p) }
    ensures len { length places.new ≡ length places.old }
{
    if let Some(port) = port_of(index, key) {
        set(places, port, None);
    }
}

/// Takes out of the index the key of what stood in a place.
fn take_out(index: &mut Index, kind: NatKind, place: Option<Outward>)
    ensures taken { (key : Way) → indexed index.new.entries key ≡ unless_way kind place key (indexed index.old.entries key) }
    ensures spare { spare index.old ≤ spare index.new }
{
    if let Some(old) = place {
        let _ = index.remove(&key_of(kind, old.inside, old.dst));
    }
}

/// Puts the port of a key into the index, which has room.
fn add(index: &mut Index, key: Way, port: u16)
    requires room { 0 < spare index.old }
    ensures added { (k : Way) → indexed index.new.entries k ≡ (if same_way key k then Some port else indexed index.old.entries k) }
{
    let _ = index.insert(key, port);
}

/// Whether a datagram of the key stands in a place.
#[inline(always)]
fn has_key_in(place: Option<Outward>, kind: NatKind, inside: Ep, dst: Ep) -> bool
    ensures { result ≡ has_key_in kind inside dst place }
{
    match place {
        Some(sent) => sent.has_key(kind, inside, dst),
        None => false,
    }
}

/// Takes the memory that a datagram wants at a port, and changes nothing that is seen.
pub fn room(
    places: &mut Vec<Option<Outward>>,
    index: &mut Index,
    kind: NatKind,
    port: u16,
    inside: Ep,
    dst: Ep,
) -> Result<(), AllocError>
    requires indexed { IsIndexed kind places.old.items index.old.entries }
    requires next { IsNext places.old.items port }
    ensures indexed { IsIndexed kind places.new.items index.new.entries }
    ensures same { (p : ℕ) → place_at places.new.items p ≡ place_at places.old.items p }
    ensures ok { OnOk result (HasRoom kind places.new.items (spare index.new) port inside dst) }
{
    if has_key_in(at(places, port), kind, inside, dst) {
        return Ok(());
    }
    index.reserve(1)?;
    widen(places, port)
}

/// Puts a datagram in the place of its port, and takes out the one of its key and the one that stood there.
fn put_anew(places: &mut [Option<Outward>], index: &mut Index, kind: NatKind, sent: Outward)
    requires indexed { IsIndexed kind places.old index.old.entries }
    requires is_place { IsPlace places.old sent.port }
    requires room { 0 < spare index.old }
    ensures indexed { IsIndexed kind places.new index.new.entries }
    ensures put { IsPutIn kind places.old places.new sent }
{
    let key = key_of(kind, sent.inside, sent.dst);
    clear_key(places, index, key);
    let old = at(places, sent.port);
    take_out(index, kind, old);
    set(places, sent.port, Some(sent));
    add(index, key, sent.port);
}

/// Puts a datagram in the place of its key, which takes no memory.
fn refresh(places: &mut [Option<Outward>], index: &Index, kind: NatKind, sent: Outward)
    requires indexed { IsIndexed kind places.old index.now.entries }
    requires same { (e : Outward) × (place_at places.old sent.port ≡ Some e) × (has_key kind sent.inside sent.dst e ≡ true) }
    ensures indexed { IsIndexed kind places.new index.now.entries }
    ensures put { IsPutIn kind places.old places.new sent }
{
    set(places, sent.port, Some(sent));
}

/// Puts a datagram in the place of its port, for which there is room.
pub fn put(places: &mut [Option<Outward>], index: &mut Index, kind: NatKind, sent: Outward)
    requires indexed { IsIndexed kind places.old index.old.entries }
    requires room { HasRoom kind places.old (spare index.old) sent.port sent.inside sent.dst }
    ensures indexed { IsIndexed kind places.new index.new.entries }
    ensures put { IsPutIn kind places.old places.new sent }
{
    if has_key_in(at(places, sent.port), kind, sent.inside, sent.dst) {
        return refresh(places, index, kind, sent);
    }
    put_anew(places, index, kind, sent);
}

/// Takes out the keys of an inside endpoint.
pub fn forget_keys(index: &mut Index, inside: Ep)
    ensures forgets { (key : Way) → indexed index.new.entries key ≡ unless_in inside key (indexed index.old.entries key) }
{
    index.retain(|key, _| key.inside != inside);
}
