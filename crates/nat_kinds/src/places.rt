//! The table of a NAT: the latest outward datagram of each port.
ghost use Rattle.std.specs.Prelude.{◌≡◌, ℕ, ◌+◌, ◌<◌, ◌≤◌, None, length, is_some, true, IfNone, IfSome, OnOk};
ghost use Rattle.nat_kinds.specs.Places.{place_at, if_young, unless_of, IsPlace, IsSetAt, IsFree};
ghost use Rattle.nat_kinds.specs.Front.{IsFront, IsLiveFront};

use crate::front::Front;
use crate::limits::{FIRST_PORT, MAPPINGS_MAX};
use crate::outgoing::Outward;
use std::alloc::AllocError;
use td_base::{Ep, Millis};

/// The latest datagram of a port.
#[inline(always)]
pub fn at(places: &[Option<Outward>], port: u16) -> Option<Outward>
    ensures { result ≡ place_at places.now port }
{
    if port < FIRST_PORT {
        return None;
    }
    match places.get(usize::from(port - FIRST_PORT)) {
        Some(place) => *place,
        None => None,
    }
}

/// Sets the place of a port.
#[inline(always)]
pub fn set(places: &mut [Option<Outward>], port: u16, place: Option<Outward>)
    requires is_place { IsPlace places.old port }
    ensures set { IsSetAt places.old places.new port place }
    ensures len { length places.new ≡ length places.old }
{
    places[usize::from(port - FIRST_PORT)] = place;
}

/// Makes the table long enough for a port, which takes memory and changes nothing else.
pub fn widen(places: &mut Vec<Option<Outward>>, port: u16) -> Result<(), AllocError>
    requires from_first { FIRST_PORT ≤ port }
    requires next { port ≤ FIRST_PORT + length places.old.items }
    requires few { port < FIRST_PORT + MAPPINGS_MAX }
    requires short { length places.old.items ≤ MAPPINGS_MAX }
    ensures same { (p : ℕ) → place_at places.new.items p ≡ place_at places.old.items p }
    ensures ok { OnOk result (IsPlace places.new.items port) }
    ensures short { length places.new.items ≤ MAPPINGS_MAX }
{
    if usize::from(port - FIRST_PORT) < places.len() {
        return Ok(());
    }
    if places.push(None).is_err() {
        return Err(AllocError);
    }
    Ok(())
}

/// What a place holds, where it counts.
#[inline(always)]
fn if_young(place: Option<Outward>, idle: u32, now: Millis) -> Option<Outward>
    ensures { result ≡ if_young idle now.0 place }
{
    let sent = place?;
    if !sent.is_young(idle, now) {
        return None;
    }
    Some(sent)
}

/// Moves the front on, up to the first place that is free.
fn move_on(places: &[Option<Outward>], front: &mut Front, idle: u32, now: Millis)
    requires few { length places.now ≤ MAPPINGS_MAX }
    requires front { IsFront places.now front.old }
    requires live { IsLiveFront idle now.0 places.now front.old }
    ensures front { IsFront places.now front.new }
    ensures live { IsLiveFront idle now.0 places.now front.new }
    ensures since { front.new.since.0 ≤ front.old.since.0 }
    ensures free { IsFree idle now.0 places.now (FIRST_PORT + front.new.len) }
    ensures short { front.new.len ≤ length places.now }
{
    while front.len < places.len() {
        let Some(sent) = if_young(places[front.len], idle, now) else {
            return;
        };
        front.take_in(sent.moment);
    }
}

/// The lowest port that no live mapping holds, if there is one: the one behind the front, which is moved on to there.
pub fn lowest_free(
    places: &[Option<Outward>],
    front: &mut Front,
    idle: u32,
    now: Millis,
) -> Option<u16>
    requires few { length places.now ≤ MAPPINGS_MAX }
    requires front { IsFront places.now front.old }
    requires past { front.old.since.0 ≤ now.0 }
    ensures front { IsFront places.now front.new }
    ensures live { IsLiveFront idle now.0 places.now front.new }
    ensures past { front.new.since.0 ≤ now.0 }
    ensures all { IfNone result ((q : ℕ) → FIRST_PORT ≤ q → q < FIRST_PORT + MAPPINGS_MAX → is_some (if_young idle now.0 (place_at places.now q)) ≡ true) }
    ensures below { IfSome result (λ port. port < FIRST_PORT + MAPPINGS_MAX) }
    ensures next { IfSome result (λ port. port ≤ FIRST_PORT + length places.now) }
    ensures from_first { IfSome result (λ port. FIRST_PORT ≤ port) }
    ensures free { IfSome result (λ port. IsFree idle now.0 places.now port) }
    ensures lowest { IfSome result (λ port. (q : ℕ) → FIRST_PORT ≤ q → q < port → is_some (if_young idle now.0 (place_at places.now q)) ≡ true) }
{
    front.renew(idle, now);
    move_on(places, front, idle, now);
    if front.len == MAPPINGS_MAX {
        return None;
    }
    Some(FIRST_PORT + front.len as u16)
}

/// Takes out the datagrams of an inside endpoint.
pub fn forget(places: &mut Vec<Option<Outward>>, inside: Ep)
    ensures forgets { (p : ℕ) → place_at places.new.items p ≡ unless_of inside (place_at places.old.items p) }
    ensures len { length places.new.items ≡ length places.old.items }
{
    let mut i = 0;
    while i < places.len() {
        if let Some(sent) = places[i] {
            if sent.inside == inside {
                places[i] = None;
            }
        }
        i += 1;
    }
}
