//! The entries of the listed peers: a slab, and what leads to its keys.
ghost use Rattle.std.specs.Prelude.{◌≡◌, ◌≤◌, ◌<◌, ℕ, Some, None, find, filter, length, option_map, is_some, true, false, nat_lt, [], IfSome, OnOk, OnErr};
ghost use Rattle.slab.specs.Slab.{get, ContainsKey};
ghost use Rattle.peer_list.specs.Calls.{changed_at, IsInTime};
ghost use Rattle.peer_list.specs.Waiting.{Listing as Kept};
ghost use Rattle.peer_list.specs.Table.{table, is_of, is_listed_at, listed_in, waiting_in, first_due_in, due_and_who};
ghost use Rattle.peer_list.specs.Overdue.{due_moment, IsNoSooner, IsSooner, IsKeptDue};
ghost use Rattle.peer_list.specs.declared.limits.TheConstants.{PEERS_MAX};
ghost use Rattle.peer_list.specs.Sound.{NoneBefore};
ghost use Rattle.peer_list.specs.Entries.{listings_of, entry_for, key_of, AreWhole, AreWholeBut, entry_due, AreInTurn};
ghost use Rattle.peer_list.specs.Entries.{IsSinceAll, AreKept, IsFirstOf, IsAfter, Adds, SameEntries};

use crate::change::Change;
use crate::limits::{LISTED_MS, PEERS_MAX};
use crate::listed_peer::Peer;
use crate::listings::Listing;
use crate::{order, tries};
use slab::Slab;
use std::alloc::Global;
use std::collections::BTreeMap;
use td_base::{Ip6, Millis, NoMemory};

/// An entry for each address that is listed, or was when it was last looked.
#[derive(Drop)]
pub struct Entries {
    pub slab: Slab<Listing>,
    /// From an address to the key of its entry.
    pub index: BTreeMap<Ip6, usize>,
    /// The keys of those for which packets wait, in the order in which these are due. There is room for every other key.
    pub order: Vec<usize>,
    /// No entry was touched before, so that a call needn't look at each of them.
    pub touched: Millis,
}

// No clause sees a field that nothing reads: so they are their parts, and no byte more.
const _: () = prove_eq!(
    size_of::<Entries>(),
    size_of::<(Slab<Listing>, BTreeMap<Ip6, usize>, Vec<usize>, Millis)>()
);

/// Whether there is an entry under a key.
fn has_entry(slab: &Slab<Listing>, key: usize) -> bool
    ensures { result ≡ is_some (get slab.now key) }
{
    slab.get(key).is_some()
}

impl Entries {
    pub fn new(alloc: Global) -> Entries
        ensures kept { AreKept result 0 }
        ensures empty { listings_of result ≡ [] }
    {
        Entries {
            slab: Slab::new(alloc),
            index: BTreeMap::new(alloc),
            order: Vec::new(alloc),
            touched: Millis(0),
        }
    }

    /// The key of the entry of an address, where it has one.
    pub fn find_key(&self, who: Ip6) -> Option<usize>
        ensures { result ≡ key_of self.now who }
    {
        self.index.get(&who).copied()
    }

    /// The key of the entry of an address that has one.
    pub fn key(&self, who: Ip6) -> usize
        requires whole { AreWhole self.now }
        requires there { is_some (find (is_of who) (listings_of self.now)) ≡ true }
        ensures key { key_of self.now who ≡ Some result }
        ensures there { ContainsKey self.now.slab result }
    {
        self.index[&who]
    }

    /// What is known of an address that has an entry.
    pub fn find(&self, who: Ip6) -> Option<&Peer>
        requires whole { AreWhole self.now }
        ensures { option_map (λ peer. peer.now) result ≡ option_map (λ l. l.peer) (find (is_of who) (listings_of self.now)) }
    {
        Some(&self.slab.get(self.find_key(who)?)?.peer)
    }

    /// What is known of an address that has an entry.
    pub fn peer(&self, who: Ip6) -> &Peer
        requires whole { AreWhole self.now }
        requires there { is_some (find (is_of who) (listings_of self.now)) ≡ true }
        ensures { option_map (λ l. l.peer) (find (is_of who) (listings_of self.now)) ≡ Some result.now }
    {
        self.peer_under(self.key(who), who)
    }

    /// The same, where the key of the entry is known.
    pub fn peer_under(&self, key: usize, who: Ip6) -> &Peer
        requires whole { AreWhole self.now }
        requires key { key_of self.now who ≡ Some key }
        requires there { ContainsKey self.now.slab key }
        ensures { option_map (λ l. l.peer) (find (is_of who) (listings_of self.now)) ≡ Some result.now }
    {
        &self.slab[key].peer
    }

    /// Whether there is room for anybody: then nobody needs to be looked for.
    pub fn is_short(&self) -> bool
        ensures { result ≡ nat_lt (length self.now.index.entries) PEERS_MAX }
    {
        self.index.len() < PEERS_MAX
    }

    /// How many are listed.
    pub fn count(&self, now: Millis) -> usize
        requires whole { AreWhole self.now }
        ensures count { result ≡ length (listed_in (table now.0 (listings_of self.now)) now.0) }
        ensures most { result ≤ PEERS_MAX }
    {
        let mut count = 0;
        for (_, key) in &self.index {
            if self.slab[*key].peer.is_listed(now) {
                count += 1;
            }
        }
        count
    }

    /// How many packets wait for all that are listed, or are held.
    pub fn waiting(&self, now: Millis) -> u16
        requires whole { AreWhole self.now }
        ensures { result ≡ waiting_in (table now.0 (listings_of self.now)) now.0 }
    {
        let mut waiting = 0;
        for (_, key) in &self.index {
            let peer = &self.slab[*key].peer;
            if peer.is_listed(now) {
                waiting += peer.kept_count();
            }
        }
        waiting
    }

    /// What is due before none of the entries, be they listed or not.
    fn first(&self) -> Option<(Millis, Ip6)>
        requires whole { AreWhole self.now }
        ensures before { NoneBefore result (listings_of self.now) }
        ensures there { IfSome result (IsFirstOf self.now) }
    {
        let listing = &self.slab[*self.order.first()?];
        Some((listing.peer.due(), listing.who))
    }

    /// When the first of them is due, be it listed then or not: nothing is due before.
    pub fn quiet_until(&self) -> Option<Millis>
        requires whole { AreWhole self.now }
        ensures none { (m : ℕ) → IsNoSooner m (option_map (λ at. at.0) result)
            → (n : ℕ) → IsNoSooner m (option_map due_moment (first_due_in (table n (listings_of self.now)) n)) }
        ensures some { (m : ℕ) → IsSooner m (option_map (λ at. at.0) result) → (n : ℕ) → IsKeptDue (table n (listings_of self.now)) m }
    {
        let (at, _) = self.first()?;
        Some(at)
    }

    /// When the next try is due, and whose: that of the first that is listed.
    pub fn due(&self, now: Millis) -> Option<(Millis, Ip6)>
        requires whole { AreWhole self.now }
        ensures { result ≡ option_map due_and_who (first_due_in (table now.0 (listings_of self.now)) now.0) }
    {
        for key in &self.order {
            let listing = &self.slab[*key];
            if listing.peer.is_listed(now) {
                return Some((listing.peer.due(), listing.who));
            }
        }
        None
    }

    /// When the entry under a key is due.
    pub fn due_at(&self, key: usize) -> Option<(Millis, Ip6)>
        ensures { result ≡ entry_due (get self.now.slab key) }
    {
        order::due_at(&self.slab, key)
    }

    /// Puts a key, whose entry was changed, where it belongs now. Where it is due as before it stays.
    pub fn settle(&mut self, key: usize, before: Option<(Millis, Ip6)>)
        requires but { AreWholeBut self.old key before }
        requires still { entry_due (get self.old.slab key) ≡ before → AreInTurn self.old.slab self.old.order.items }
        ensures whole { AreWhole self.new }
        ensures slab { self.new.slab ≡ self.old.slab }
        ensures index { self.new.index ≡ self.old.index }
        ensures touched { self.new.touched ≡ self.old.touched }
    {
        order::settle(&mut self.order, &self.slab, key, before);
    }

    /// Changes the peer of the entry under a key, and puts the key where it belongs then.
    pub fn change(&mut self, key: usize, now: Millis, change: Change)
        requires kept { AreKept self.old now.0 }
        requires there { ContainsKey self.old.slab key }
        requires early { IsInTime now.0 change }
        ensures kept { AreKept self.new now.0 }
        ensures changed { (l : Kept) → get self.old.slab key ≡ Some l → IsAfter self.old self.new key l (changed_at now.0 change l.peer) }
    {
        let before = self.due_at(key);
        self.slab[key].peer.change(now, change);
        self.settle(key, before);
    }

    /// When the first of all was touched.
    fn first_touched(&self, now: Millis) -> Millis
        ensures since { IsSinceAll result.0 self.now.slab }
        ensures past { result.0 ≤ now.0 }
    {
        let mut first = now;
        for (_, listing) in self.slab.iter() {
            first = Millis(first.0.min(listing.peer.touched().0));
        }
        first
    }

    /// Takes out whoever isn't listed any more.
    fn take_out_unlisted(&mut self, now: Millis)
        requires whole { AreWhole self.old }
        ensures whole { AreWhole self.new }
        ensures listings { listings_of self.new ≡ filter (is_listed_at now.0) (listings_of self.old) }
    {
        self.slab.retain(|_, listing| listing.peer.is_listed(now));
        let slab = &self.slab;
        self.index.retain(|_, key| has_entry(slab, *key));
        self.order.retain(|key| has_entry(slab, *key));
    }

    /// Takes out whoever isn't listed any more, where there may be one.
    pub fn purge(&mut self, now: Millis)
        requires kept { AreKept self.old now.0 }
        ensures kept { AreKept self.new now.0 }
        ensures listings { listings_of self.new ≡ filter (is_listed_at now.0) (listings_of self.old) }
    {
        if tries::is_young(LISTED_MS, now, self.touched) {
            return;
        }
        self.take_out_unlisted(now);
        self.touched = self.first_touched(now);
    }

    /// Adds an entry for an address that has none. All memory is taken before it is there.
    pub fn add(&mut self, listing: Listing) -> Result<(), NoMemory>
        requires whole { AreWhole self.old }
        requires absent { key_of self.old listing.who ≡ None }
        requires room { length self.old.index.entries < PEERS_MAX }
        ensures whole { AreWhole self.new }
        ensures touched { self.new.touched ≡ self.old.touched }
        ensures added { OnOk result (Adds self.old self.new listing) }
        ensures same { OnErr result (SameEntries self.old self.new) }
    {
        // A place in the order for each key, so that whoever becomes due later needs no memory for it.
        let places = (self.index.len() + 1).saturating_sub(self.order.len());
        self.slab.reserve(1)?;
        self.order.reserve(places)?;
        self.index.insert(listing.who, self.slab.vacant_key())?;
        let key = self.slab.insert_reserved(listing);
        order::put(&mut self.order, &self.slab, key);
        Ok(())
    }

    pub fn clear(&mut self)
        ensures kept { AreKept self.new 0 }
        ensures empty { listings_of self.new ≡ [] }
    {
        self.slab.clear();
        self.index.clear();
        self.order.clear();
        self.touched = Millis(0);
    }
}
