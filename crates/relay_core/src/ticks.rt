//! What a relay does where something is due.
ghost use Rattle.std.specs.Prelude.{◌≡◌, ◌≤◌, ℕ, List, true, false, None, Some, option_map};
ghost use Rattle.teredo_node.specs.Journal.{Entry, ticked};
ghost use Rattle.teredo_node.specs.Due.{IsFirstDue, Idles, Lessens};
ghost use Rattle.peer_list.specs.Table.{known_to};
ghost use Rattle.peer_list.specs.Overdue.{IsNoSooner, IsSooner, IsKeptDue, IsOverdue};
ghost use Rattle.relay_rules.specs.Journals.{wordless_entry, relay_due};
ghost use Rattle.relay_rules.specs.Ticks.{relay_tries_peer};
ghost use Rattle.relay_core.specs.Relay.{relay_settings_of, RelayStandsFor, IsCallableRelay, RelayEnters, RelayDoes, RelayAsBefore};
ghost use Rattle.relay_core.specs.Endpoint.{IsRelayDue, relay_owing, DoesDue};

use crate::relay::Relay;
use td_base::{Ip6, Millis};
use teredo_node::{Fate, Step};

impl Relay {
    /// Does what is due of the peer that is due first.
    pub(crate) fn tick(&mut self, now: Millis, step: &mut Step)
        requires callable { IsCallableRelay self.old now.0 }
        ensures done { RelayDoes self.old now.0 ticked step.new self.new }
        ensures idle { Idles (relay_owing self.old now.0) (RelayAsBefore self.old self.new) step.new }
        ensures less { Lessens (relay_owing self.old now.0) (relay_owing self.new now.0) step.new }
    {
        let Some(who) = self.peers.overdue(now) else {
            step.reset(Fate::Idle);
            return;
        };
        // give_up: RFC 4380, section 5.2.6
        if self.peers.is_spent(now, who) {
            self.give_up(now, who, step);
            return;
        }
        // bubbles: RFC 4380, section 5.2.6
        self.try_again(now, who, step);
    }

    /// Drops the packets that wait for a peer.
    fn give_up(&mut self, now: Millis, who: Ip6, step: &mut Step)
        requires callable { IsCallableRelay self.old now.0 }
        requires overdue { IsOverdue self.old.peers now.0 who }
        ensures step { step.new ≡ relay_tries_peer true (relay_settings_of self.old) (record { who = who; peer = known_to self.old.peers now.0 who }) }
        ensures entered { RelayEnters self.old (wordless_entry now.0 ticked None (Some who) step.new) self.new }
        ensures less { DoesDue self.old self.new now.0 step.new }
    {
        let gone = self.peers.give_up(now, who);
        step.reset(Fate::GiveUp);
        step.set_gone(u16::from(gone));
    }

    /// Tries a peer for which packets wait.
    fn try_again(&mut self, now: Millis, who: Ip6, step: &mut Step)
        requires callable { IsCallableRelay self.old now.0 }
        requires overdue { IsOverdue self.old.peers now.0 who }
        ensures step { step.new ≡ relay_tries_peer false (relay_settings_of self.old) (record { who = who; peer = known_to self.old.peers now.0 who }) }
        ensures entered { RelayEnters self.old (wordless_entry now.0 ticked None (Some who) step.new) self.new }
        ensures less { DoesDue self.old self.new now.0 step.new }
    {
        self.send_bubble(who, Fate::Bubbles, step);
        self.peers.tried(now, who, None);
    }

    /// When something is due: a try at a peer, or the end of the packets that wait for it.
    pub(crate) fn next_due(&self, now: Millis) -> Option<Millis>
        requires callable { IsCallableRelay self.now now.0 }
        ensures told { IsRelayDue self.now now.0 result }
        ensures first { IsFirstDue (relay_owing self.now) now.0 result }
    {
        self.peers.next_due(now)
    }

    /// The moment before which nothing is due, whenever it is asked; `None` where nothing is due at all. It is that of one
    /// peer, listed or not, and so nothing need be due then.
    pub fn quiet_until(&self) -> Option<Millis>
        /// Nothing is due of a relay before the moment that `quiet_until` answers, whenever it is asked, and nothing at
        /// all where it answers none. This holds for every journal that it stands for. It is stated in
        /// `peer_list/Overdue.antt`, over `relay_rules/Journals.antt`.
        /// Leaves open: that something is due then.
        ensures none { (m : ℕ) → IsNoSooner m (option_map (λ at. at.0) result)
            → (j : List Entry) (n : ℕ) → RelayStandsFor self.now j → self.now.peers.moment ≤ n → IsNoSooner m (relay_due j n) }
        /// See `none`.
        ensures some { (m : ℕ) → IsSooner m (option_map (λ at. at.0) result) → IsKeptDue self.now.peers m }
    {
        self.peers.quiet_until()
    }
}
