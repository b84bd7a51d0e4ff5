//! What lists a peer.
ghost use Rattle.std.specs.Prelude.{◌≡◌, ◌≤◌, true, false, length, Some, is_some, OnOk, OnErr};
ghost use Rattle.ipv6_packet.specs.declared.header.TheConstants.{PACKET_MAX};
ghost use Rattle.peer_list.specs.Judged.{is_full, holds_most};
ghost use Rattle.peer_list.specs.Table.{table, peer_in, known_to, has_room_in};
ghost use Rattle.peer_list.specs.Calls.{touched_at, queued_at, holding, held_at, KnowsThen, KnowsStill};
ghost use Rattle.slab.specs.Slab.{get, ContainsKey};
ghost use Rattle.peer_list.specs.Waiting.{Listing as Kept};
ghost use Rattle.peer_list.specs.Entries.{listings_of, AreKept, IsAfter};

use crate::change::Change;
use crate::entries::Entries;
use crate::listed_peer::Peer;
use std::alloc::Global;
use td_base::{Ep, Ip6, Millis, NoMemory};

/// A peer, and whose. No call hands one out: contracts speak of it.
#[derive(Drop)]
pub struct Listing {
    pub who: Ip6,
    pub peer: Peer,
}

/// Lists and touches a peer, after all that aren't listed any more are taken out.
pub fn list(entries: &mut Entries, alloc: Global, now: Millis, who: Ip6) -> Result<(), NoMemory>
    requires kept { AreKept entries.old now.0 }
    requires room { has_room_in (table now.0 (listings_of entries.old)) now.0 who ≡ true }
    ensures kept { AreKept entries.new now.0 }
    ensures listed { let old = table now.0 (listings_of entries.old) in
        OnOk result (KnowsThen old (table now.0 (listings_of entries.new)) now.0 who (touched_at now.0 (known_to old now.0 who))) }
    ensures same { OnErr result (KnowsStill (table now.0 (listings_of entries.old)) (table now.0 (listings_of entries.new)) now.0) }
    ensures unlisted { OnErr result (is_some (peer_in (table now.0 (listings_of entries.old)) now.0 who) ≡ false) }
{
    entries.purge(now);
    match entries.find_key(who) {
        Some(key) => {
            entries.change(key, now, Change::Touch);
            Ok(())
        }
        None => {
            let peer = Peer::new(alloc, now);
            entries.add(Listing { who, peer })
        }
    }
}

/// Lets a packet wait for the peer of the entry under a key.
fn wait_at(
    entries: &mut Entries,
    alloc: Global,
    now: Millis,
    key: usize,
    packet: &[u8],
) -> Result<(), NoMemory>
    requires kept { AreKept entries.old now.0 }
    requires there { ContainsKey entries.old.slab key }
    requires free { (l : Kept) → get entries.old.slab key ≡ Some l → is_full l.peer ≡ false }
    requires short { length packet.now ≤ PACKET_MAX }
    ensures kept { AreKept entries.new now.0 }
    ensures queued { (l : Kept) → get entries.old.slab key ≡ Some l → OnOk result (IsAfter entries.old entries.new key l (queued_at now.0 packet.now l.peer)) }
    ensures same { OnErr result (listings_of entries.new ≡ listings_of entries.old) }
{
    let before = entries.due_at(key);
    entries.slab[key].peer.wait(alloc, now, packet)?;
    entries.settle(key, before);
    Ok(())
}

/// Lets a packet wait, after all that aren't listed any more are taken out.
pub fn wait(
    entries: &mut Entries,
    alloc: Global,
    now: Millis,
    who: Ip6,
    packet: &[u8],
) -> Result<(), NoMemory>
    requires kept { AreKept entries.old now.0 }
    requires room { has_room_in (table now.0 (listings_of entries.old)) now.0 who ≡ true }
    requires free { is_full (known_to (table now.0 (listings_of entries.old)) now.0 who) ≡ false }
    requires short { length packet.now ≤ PACKET_MAX }
    ensures kept { AreKept entries.new now.0 }
    ensures queued { let old = table now.0 (listings_of entries.old) in
        OnOk result (KnowsThen old (table now.0 (listings_of entries.new)) now.0 who (queued_at now.0 packet.now (known_to old now.0 who))) }
    ensures same { OnErr result (KnowsStill (table now.0 (listings_of entries.old)) (table now.0 (listings_of entries.new)) now.0) }
{
    entries.purge(now);
    match entries.find_key(who) {
        Some(key) => wait_at(entries, alloc, now, key, packet),
        None => {
            let mut peer = Peer::new(alloc, now);
            peer.wait(alloc, now, packet)?;
            entries.add(Listing { who, peer })
        }
    }
}

/// Holds a packet from the peer of the entry under a key.
fn hold_at(
    entries: &mut Entries,
    alloc: Global,
    now: Millis,
    key: usize,
    from: Ep,
    packet: &[u8],
) -> Result<(), NoMemory>
    requires kept { AreKept entries.old now.0 }
    requires there { ContainsKey entries.old.slab key }
    requires free { (l : Kept) → get entries.old.slab key ≡ Some l → holds_most l.peer ≡ false }
    requires short { length packet.now ≤ PACKET_MAX }
    ensures kept { AreKept entries.new now.0 }
    ensures held { (l : Kept) → get entries.old.slab key ≡ Some l → OnOk result (IsAfter entries.old entries.new key l (holding from packet.now l.peer)) }
    ensures same { OnErr result (listings_of entries.new ≡ listings_of entries.old) }
{
    let before = entries.due_at(key);
    entries.slab[key].peer.hold(alloc, from, packet)?;
    entries.settle(key, before);
    Ok(())
}

/// Holds a packet that came from an endpoint, after all that aren't listed any more are taken out.
pub fn hold(
    entries: &mut Entries,
    alloc: Global,
    now: Millis,
    who: Ip6,
    from: Ep,
    packet: &[u8],
) -> Result<(), NoMemory>
    requires kept { AreKept entries.old now.0 }
    requires room { has_room_in (table now.0 (listings_of entries.old)) now.0 who ≡ true }
    requires free { holds_most (known_to (table now.0 (listings_of entries.old)) now.0 who) ≡ false }
    requires short { length packet.now ≤ PACKET_MAX }
    ensures kept { AreKept entries.new now.0 }
    ensures held { let old = table now.0 (listings_of entries.old) in
        OnOk result (KnowsThen old (table now.0 (listings_of entries.new)) now.0 who (held_at now.0 from packet.now (known_to old now.0 who))) }
    ensures same { OnErr result (KnowsStill (table now.0 (listings_of entries.old)) (table now.0 (listings_of entries.new)) now.0) }
{
    entries.purge(now);
    match entries.find_key(who) {
        Some(key) => hold_at(entries, alloc, now, key, from, packet),
        None => {
            let mut peer = Peer::new(alloc, now);
            peer.hold(alloc, from, packet)?;
            entries.add(Listing { who, peer })
        }
    }
}
