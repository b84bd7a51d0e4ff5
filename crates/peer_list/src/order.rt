//! The keys of the entries for which packets wait, in the order in which these are due.
ghost use Rattle.std.specs.Prelude.{◌≡◌, ◌<◌, ◌≤◌, ◌+◌, ◌&&◌, ℕ, true, false, not, is_some, if◌then◌else◌, nat_eq, length, get_or};
ghost use Rattle.std.specs.List.{count_by};
ghost use Rattle.std.specs.Vec.{vec_len, vec_capacity};
ghost use Rattle.slab.specs.Slab.{get};
ghost use Rattle.peer_list.specs.Sound.{is_before};
ghost use Rattle.peer_list.specs.Entries.{entry_due, AreInTurn, IsPlaceFor, AreDueOnce, AreDueButOnce, keys_without};

use crate::listings::Listing;
use slab::Slab;
use td_base::{Ip6, Millis};

/// When the next try at the peer of an entry is due, and whose it is. Where no packets wait nothing is due.
pub fn due_at(slab: &Slab<Listing>, key: usize) -> Option<(Millis, Ip6)>
    ensures { result ≡ entry_due (get slab.now key) }
{
    let listing = slab.get(key)?;
    if listing.peer.is_idle() {
        return None;
    }
    Some((listing.peer.due(), listing.who))
}

/// Whether one is due before the first.
fn is_before(next: (Millis, Ip6), first: Option<(Millis, Ip6)>) -> bool
    ensures { result ≡ is_before next first }
{
    let Some(first) = first else {
        return true;
    };
    next.0.cmp(&first.0).then(next.1.cmp(&first.1)).is_lt()
}

/// Whether both are due at one moment, of one address, or neither is due.
fn is_same(now: Option<(Millis, Ip6)>, before: Option<(Millis, Ip6)>) -> bool
    ensures { result ≡ true → now ≡ before }
{
    match (now, before) {
        (None, None) => true,
        (Some(now), Some(before)) => {
            if now.0.0 != before.0.0 {
                return false;
            }
            now.1 == before.1
        }
        _ => false,
    }
}

/// Whether an entry may stand in front of what is due then: that isn't due before it.
fn is_in_turn(slab: &Slab<Listing>, first: usize, next: (Millis, Ip6)) -> bool
    ensures { result ≡ not (is_before next (entry_due (get slab.now first))) }
{
    !is_before(next, due_at(slab, first))
}

/// The place behind all keys whose entries aren't due later.
fn place_behind(order: &[usize], slab: &Slab<Listing>, next: (Millis, Ip6)) -> usize
    requires turn { AreInTurn slab.now order.now }
    ensures within { result ≤ length order.now }
    ensures place { IsPlaceFor slab.now order.now next result }
{
    order.partition_point(|other| is_in_turn(slab, *other, next))
}

/// Puts a key, where packets wait for its entry, behind all whose entries aren't due later. There has to be room for it.
pub fn put(order: &mut Vec<usize>, slab: &Slab<Listing>, key: usize)
    requires room { vec_len order.old < vec_capacity order.old }
    requires turn { AreInTurn slab.now order.old.items }
    ensures turn { AreInTurn slab.now order.new.items }
    ensures keys { (k : ℕ) → count_by (nat_eq k) order.new.items
        ≡ count_by (nat_eq k) order.old.items + (if nat_eq k key && is_some (entry_due (get slab.now key)) then 1 else 0) }
    ensures capacity { vec_capacity order.old ≤ vec_capacity order.new }
{
    let Some(due) = due_at(slab, key) else {
        return;
    };
    let place = place_behind(order, slab, due);
    order.insert(place, key).unwrap();
}

/// The place of a key that stands there once.
// Inlined into its callers, the scan of 256 keys took 20 ns more.
#[inline(never)]
fn place_of(order: &[usize], key: usize) -> usize
    requires once { count_by (nat_eq key) order.now ≡ 1 }
    ensures there { result < length order.now }
    ensures key { get_or order.now result 0 ≡ key }
{
    let mut place = 0;
    while order[place] != key {
        place += 1;
    }
    place
}

/// Takes out a key, which stands there once where its entry was due, and else nowhere.
fn take_out(order: &mut Vec<usize>, key: usize, was_due: bool)
    requires once { count_by (nat_eq key) order.old.items ≡ (if was_due then 1 else 0) }
    ensures items { order.new.items ≡ keys_without key order.old.items }
    ensures capacity { vec_capacity order.new ≡ vec_capacity order.old }
{
    if !was_due {
        return;
    }
    order.remove(place_of(order, key));
}

/// Puts a key, whose entry was changed, where it belongs now. Where it is due as before it stays.
pub fn settle(
    order: &mut Vec<usize>,
    slab: &Slab<Listing>,
    key: usize,
    before: Option<(Millis, Ip6)>,
)
    requires once { AreDueButOnce slab.now key before order.old.items }
    requires room { is_some before ≡ false → vec_len order.old < vec_capacity order.old }
    requires others { AreInTurn slab.now (keys_without key order.old.items) }
    requires still { entry_due (get slab.now key) ≡ before → AreInTurn slab.now order.old.items }
    ensures once { AreDueOnce slab.now order.new.items }
    ensures turn { AreInTurn slab.now order.new.items }
    ensures capacity { vec_capacity order.old ≤ vec_capacity order.new }
{
    if is_same(due_at(slab, key), before) {
        return;
    }
    take_out(order, key, before.is_some());
    put(order, slab, key);
}
