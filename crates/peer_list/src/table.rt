//! The peers that a node keeps, and what is asked of them.
ghost use Rattle.std.specs.Prelude.{◌≡◌, ◌≤◌, ◌<◌, [], ℕ, true, false, length, option_map, is_some, IfSome, IfNone};
ghost use Rattle.peer_list.specs.Judged.{is_trusted_at, is_fresh, is_spent, is_barred, is_full, holds_most, held_from, held_elsewhere};
ghost use Rattle.peer_list.specs.Table.{empty_table, peer_in, known_to, listed_in, has_room_in, waiting_in, first_due_in, due_and_who};
ghost use Rattle.peer_list.specs.Overdue.{due_moment, due_by, overdue_in, listing_at, IsOverdue, IsNoSooner, IsSooner, IsKeptDue};
ghost use Rattle.peer_list.specs.Timely.{FirstLasts};
ghost use Rattle.peer_list.specs.Stands.{StandsForMentions};
ghost use Rattle.teredo_node.specs.Due.{IsFirstDue};

use crate::entries::Entries;
use crate::limits::PEERS_MAX;
use crate::listed_peer::Peer;
use std::alloc::Global;
use std::marker::Model;
use td_base::{Ep, Ip6, Millis};
use teredo_node::Step;

/// The peers that a node keeps.
#[derive(Drop)]
pub struct Peers {
    pub(crate) alloc: Global,
    pub(crate) moment: Millis,
    /// Whom the latest call changed.
    pub(crate) latest: Option<Ip6>,
    pub(crate) entries: Entries,
}

// No clause sees a field that nothing reads: so they are their parts, and no byte more.
const _: () = prove_eq!(
    size_of::<Peers>(),
    size_of::<(Global, Millis, Option<Ip6>, Entries)>()
);

impl Model for Peers {
    ghost use Rattle.peer_list.specs.Table.{Table};
    ghost use Rattle.peer_list.specs.Entries.{listings_of};
    ghost use Rattle.peer_list.specs.Timely.{IsKeptTimely};

    ghost Value = { Table };

    ghost view = { λ s. record { moment = s.moment.0; listings = listings_of s.entries; latest = s.latest } };

    ghost invariant = { λ s. IsKeptTimely s.entries s.moment.0 };
}

impl Peers {
    /// Nobody is listed.
    pub fn new(alloc: Global) -> Peers
        /// A new table stands for no mentions, and a cleared one too.
        ensures empty { result ≡ empty_table }
        /// See `empty`.
        ensures stands { StandsForMentions result [] }
    {
        Peers {
            alloc,
            moment: Millis(0),
            latest: None,
            entries: Entries::new(alloc),
        }
    }

    /// What is known of an address, where it is listed.
    pub fn find(&self, now: Millis, who: Ip6) -> Option<&Peer>
        requires clock { self.now.moment ≤ now.0 }
        /// `find` lends what is known of an address exactly where it is listed; there is room for an address that is
        /// listed, and for another one where fewer than 256 are.
        /// Needs: moments don't fall.
        ensures { option_map (λ peer. peer.now) result ≡ peer_in self.now now.0 who }
    {
        let peer = self.entries.find(who)?;
        if !peer.is_listed(now) {
            return None;
        }
        Some(peer)
    }

    /// What is known of a listed address.
    pub(crate) fn peer(&self, now: Millis, who: Ip6) -> &Peer
        requires clock { self.now.moment ≤ now.0 }
        requires listed { is_some (peer_in self.now now.0 who) ≡ true }
        ensures { result.now ≡ known_to self.now now.0 who }
    {
        self.entries.peer(who)
    }

    /// Whether an address is listed.
    pub fn is_listed(&self, now: Millis, who: Ip6) -> bool
        requires clock { self.now.moment ≤ now.0 }
        /// See `Peers::find`.
        ensures { result ≡ is_some (peer_in self.now now.0 who) }
    {
        self.find(now, who).is_some()
    }

    /// Whether an address is trusted at this very endpoint, port and all.
    #[tactic(auto, unfolding(crate::specs::Judged::is_trusted_at))]
    pub fn is_trusted_at(&self, now: Millis, who: Ip6, from: Ep) -> bool
        requires clock { self.now.moment ≤ now.0 }
        /// See `Peers::is_fresh`.
        ensures { result ≡ is_trusted_at from (known_to self.now now.0 who) }
    {
        match self.find(now, who) {
            None => false,
            Some(peer) => peer.is_trusted_at(from),
        }
    }

    /// Whether packets go to an address without a try: RFC 4380, section 5.2.4.
    #[tactic(auto, unfolding(crate::specs::Judged::is_fresh))]
    pub fn is_fresh(&self, now: Millis, who: Ip6) -> bool
        requires clock { self.now.moment ≤ now.0 }
        /// An address is fresh, spent, barred, full, has as many held packets as it may, or is trusted at an endpoint,
        /// exactly as the definitions say.
        /// Needs: moments don't fall.
        ensures { result ≡ is_fresh now.0 (known_to self.now now.0 who) }
    {
        match self.find(now, who) {
            None => false,
            Some(peer) => peer.is_fresh(now),
        }
    }

    /// Whether no further try at an address helps: RFC 4380, section 5.2.6.
    #[tactic(auto, unfolding(crate::specs::Judged::is_spent))]
    pub fn is_spent(&self, now: Millis, who: Ip6) -> bool
        requires clock { self.now.moment ≤ now.0 }
        /// See `Peers::is_fresh`.
        ensures { result ≡ is_spent now.0 (known_to self.now now.0 who) }
    {
        match self.find(now, who) {
            None => false,
            Some(peer) => peer.is_spent(now),
        }
    }

    /// Whether an address may not be tried now: RFC 4380, section 5.2.6.
    #[tactic(auto, unfolding(crate::specs::Judged::is_barred, crate::specs::Judged::is_spent))]
    pub fn is_barred(&self, now: Millis, who: Ip6) -> bool
        requires clock { self.now.moment ≤ now.0 }
        /// See `Peers::is_fresh`.
        ensures { result ≡ is_barred now.0 (known_to self.now now.0 who) }
    {
        match self.find(now, who) {
            None => false,
            Some(peer) => peer.is_barred(now),
        }
    }

    /// Whether no further packet may wait for an address.
    #[tactic(auto, unfolding(crate::specs::Judged::is_full))]
    pub fn is_full(&self, now: Millis, who: Ip6) -> bool
        requires clock { self.now.moment ≤ now.0 }
        /// See `Peers::is_fresh`.
        ensures { result ≡ is_full (known_to self.now now.0 who) }
    {
        match self.find(now, who) {
            None => false,
            Some(peer) => peer.is_full(),
        }
    }

    /// Whether no further packet from an address may be held.
    #[tactic(auto, unfolding(crate::specs::Judged::holds_most))]
    pub fn holds_most(&self, now: Millis, who: Ip6) -> bool
        requires clock { self.now.moment ≤ now.0 }
        /// See `Peers::is_fresh`.
        ensures { result ≡ holds_most (known_to self.now now.0 who) }
    {
        match self.find(now, who) {
            None => false,
            Some(peer) => peer.holds_most(),
        }
    }

    /// How many packets from a listed address are held.
    pub fn held_count(&self, now: Millis, who: Ip6) -> u8
        requires clock { self.now.moment ≤ now.0 }
        requires listed { is_some (peer_in self.now now.0 who) ≡ true }
        /// See `Peers::hand_late`: `late`.
        ensures { result ≡ length (known_to self.now now.0 who).held }
    {
        self.peer(now, who).held_count()
    }

    /// Hands over late, in order, the held packets of a listed address that came from an endpoint, and says how many came
    /// from elsewhere. All are held until the address is heard.
    pub fn hand_late(&self, now: Millis, who: Ip6, from: Ep, step: &mut Step) -> u8
        requires clock { self.now.moment ≤ now.0 }
        requires listed { is_some (peer_in self.now now.0 who) ≡ true }
        requires first { step.old.late ≡ [] }
        /// What is held and came from an endpoint is handed over late, in order, and how many came from elsewhere is
        /// told. Nothing changes; being heard ends what is held.
        /// Needs: moments don't fall; the peer is listed; the step hands over nothing late yet.
        ensures late { step.new ≡ record step.old { late = held_from from (known_to self.now now.0 who).held } }
        /// See `late`.
        ensures elsewhere { result ≡ held_elsewhere from (known_to self.now now.0 who).held }
    {
        self.peer(now, who).hand_late(from, step)
    }

    /// Where an address is trusted.
    pub fn trusted(&self, now: Millis, who: Ip6) -> Option<Ep>
        requires clock { self.now.moment ≤ now.0 }
        /// See `Peers::find`.
        ensures { result ≡ (known_to self.now now.0 who).trusted }
    {
        self.find(now, who)?.trusted()
    }

    /// The nonce of the latest test of an address since it was trusted.
    pub fn nonce(&self, now: Millis, who: Ip6) -> Option<u64>
        requires clock { self.now.moment ≤ now.0 }
        /// See `Peers::find`.
        ensures { result ≡ (known_to self.now now.0 who).nonce }
    {
        self.find(now, who)?.nonce()
    }

    /// Whom the latest call changed: listed, touched, held a packet of, or gave up.
    pub fn latest(&self) -> Option<Ip6>
        /// `latest` is the peer of the latest call that changed what is known of one: of the latest mention that concerns a
        /// peer, for each list of mentions that the table stands for (`StandsForMentions`).
        /// Leaves open: whether that peer is still listed.
        ensures { result ≡ self.now.latest }
    {
        self.latest
    }

    /// How many addresses are listed.
    pub fn count(&self, now: Millis) -> usize
        requires clock { self.now.moment ≤ now.0 }
        /// See `Peers::due`: `first`.
        ensures count { result ≡ length (listed_in self.now now.0) }
        /// See `Peers::due`: `first`.
        ensures most { result ≤ PEERS_MAX }
    {
        self.entries.count(now)
    }

    /// Whether an address is listed, or may still be.
    #[tactic(auto, unfolding(crate::specs::Table::has_room_in))]
    pub fn has_room(&self, now: Millis, who: Ip6) -> bool
        requires clock { self.now.moment ≤ now.0 }
        /// See `Peers::find`.
        ensures { result ≡ has_room_in self.now now.0 who }
    {
        if self.entries.is_short() {
            return true;
        }
        self.is_listed(now, who) || self.count(now) < PEERS_MAX
    }

    /// When the next try is due, and whose: of those for whom packets wait the earliest, then the least address. That
    /// one is still listed when it is due.
    pub fn due(&self, now: Millis) -> Option<(Millis, Ip6)>
        requires clock { self.now.moment ≤ now.0 }
        /// `due` is the earliest due moment, with the least address; `waiting` and `count` are over all that are
        /// listed. `waiting` counts held packets too, but only of listed peers.
        /// Needs: moments don't fall.
        ensures first { result ≡ option_map due_and_who (first_due_in self.now now.0) }
        /// Whoever is due first is still listed when it is: packets that wait are due at that moment, or now where it
        /// is past. A peer is due a gap after its latest touch at the latest, and stays listed for longer than that.
        /// Needs: moments don't fall.
        ensures lasts { FirstLasts self.now now.0 result }
    {
        self.entries.due(now)
    }

    /// When something is due: the next try, or the end of the packets that wait.
    pub fn next_due(&self, now: Millis) -> Option<Millis>
        requires clock { self.now.moment ≤ now.0 }
        /// See `Peers::due`: `lasts`.
        ensures told { option_map (λ m. m.0) result ≡ option_map due_moment (first_due_in self.now now.0) }
        /// See `Peers::due`: `lasts`.
        ensures first { IsFirstDue (overdue_in self.now) now.0 result }
    {
        let (at, _) = self.due(now)?;
        Some(at)
    }

    /// The peer that is due first, where it is due by now.
    pub fn overdue(&self, now: Millis) -> Option<Ip6>
        requires clock { self.now.moment ≤ now.0 }
        /// `overdue` is the peer that is due first, where it is due by now; where it says nobody, nothing is.
        /// Needs: moments don't fall.
        ensures first { option_map (listing_at self.now now.0) result ≡ due_by now.0 (first_due_in self.now now.0) }
        /// See `first`.
        ensures overdue { IfSome result (IsOverdue self.now now.0) }
        /// See `first`.
        ensures none { IfNone result (overdue_in self.now now.0 ≡ 0) }
    {
        let (at, who) = self.due(now)?;
        if now < at {
            return None;
        }
        Some(who)
    }

    /// The moment before which no try is due, whenever it is asked; `None` where none is due at all. It is that of one
    /// entry, listed or not, and so nothing need be due then.
    pub fn quiet_until(&self) -> Option<Millis>
        /// No try is due before the moment that `quiet_until` answers, whenever `due` is asked, and none at all where
        /// it answers none. It is when one is due of the peers that are kept, be they listed or not.
        /// Leaves open: that a try is due then.
        ensures none { (m : ℕ) → IsNoSooner m (option_map (λ at. at.0) result) → (n : ℕ) → IsNoSooner m (option_map due_moment (first_due_in self.now n)) }
        /// See `none`.
        ensures some { (m : ℕ) → IsSooner m (option_map (λ at. at.0) result) → IsKeptDue self.now m }
    {
        self.entries.quiet_until()
    }

    /// How many packets wait for all listed peers, or are held.
    pub fn waiting(&self, now: Millis) -> u16
        requires clock { self.now.moment ≤ now.0 }
        /// See `Peers::due`: `first`.
        ensures { result ≡ waiting_in self.now now.0 }
    {
        self.entries.waiting(now)
    }
}
