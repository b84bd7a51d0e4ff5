//! What a client does where something is due.
ghost use Rattle.std.specs.Prelude.{◌≡◌, ◌≤◌, ℕ, true, false, None, Some, option_map};
ghost use Rattle.teredo_node.specs.Journal.{Journal, ticked};
ghost use Rattle.teredo_node.specs.Due.{IsFirstDue, Idles, Lessens};
ghost use Rattle.peer_list.specs.Table.{known_to, first_due_in};
ghost use Rattle.peer_list.specs.Overdue.{IsNoSooner, IsSooner, IsOverdue};
ghost use Rattle.qualify.specs.Solicitations.{is_due, own_address};
ghost use Rattle.teredo_addr.specs.Teredo.{is_teredo};
ghost use Rattle.client_core.specs.Client.{settings_of, words_ahead, ClientStandsFor, IsCallable, Enters, Does, AsBefore};
ghost use Rattle.client_core.specs.Endpoint.{IsClientDue, owing, PutsOff, MayBeDue};
ghost use Rattle.client_rules.specs.Journals.{entry, client_due};
ghost use Rattle.client_rules.specs.Ticks.{peer_due, peer_of_due, tries_peer, tick, try_fate, sooner};

use crate::client::Client;
use crate::tries::send_try;
use td_base::{Ip6, Millis};
use teredo_addr::{UNSPECIFIED, is_teredo};
use teredo_node::{Fate, Step};

/// Whether something is due by now.
fn is_past(due: Option<Millis>, now: Millis) -> bool
    ensures { result ≡ is_due now.0 (option_map (λ m. m.0) due) }
{
    match due {
        Some(at) => at.0 <= now.0,
        None => false,
    }
}

/// The fate of a try at a tick.
fn fate_of_try(peer: Ip6) -> Fate
    ensures { result ≡ try_fate (is_teredo peer) }
{
    if is_teredo(peer) {
        Fate::Bubbles
    } else {
        Fate::Test
    }
}

/// The earlier of two moments.
fn sooner(a: Option<Millis>, b: Option<Millis>) -> Option<Millis>
    ensures { option_map (λ m. m.0) result ≡ sooner (option_map (λ m. m.0) a) (option_map (λ m. m.0) b) }
{
    let Some(first) = a else { return b };
    let Some(second) = b else { return a };
    if second < first {
        return Some(second);
    }
    Some(first)
}

impl Client {
    /// Its address, or `::` where it has none.
    #[tactic(auto, unfolding(qualify::specs::Solicitations::own_address))]
    pub(crate) fn own_address(&self) -> Ip6
        ensures { result ≡ own_address self.now.qualifier.now }
    {
        self.qualifier.address().unwrap_or(UNSPECIFIED)
    }

    /// Does the first thing that is due: of the phase or the refresh, then of the peers.
    pub(crate) fn tick(&mut self, now: Millis, step: &mut Step)
        requires callable { IsCallable self.old now.0 }
        ensures done { Does self.old now.0 ticked step.new self.new }
        ensures idle { Idles (owing self.old now.0) (AsBefore self.old self.new) step.new }
        ensures less { Lessens (owing self.old now.0) (owing self.new now.0) step.new }
    {
        if is_past(self.qualifier.due(), now) {
            self.qualifier.on_tick(now, &mut self.rng, step);
            return;
        }
        self.tick_peer(now, step);
    }

    /// Does what is due of the peer that is due first.
    fn tick_peer(&mut self, now: Millis, step: &mut Step)
        requires callable { IsCallable self.old now.0 }
        ensures step { step.new ≡ tick (settings_of self.old) now.0 self.old.qualifier.now (words_ahead self.old) (peer_due now.0
            (first_due_in self.old.peers now.0)) }
        ensures entered { Enters self.old (entry now.0 ticked None (peer_of_due (peer_due now.0 (first_due_in self.old.peers now.0)))
            (words_ahead self.old) step.new) self.new }
        ensures less { PutsOff self.old self.new now.0 step.new }
    {
        let Some(who) = self.peers.overdue(now) else {
            step.reset(Fate::Idle);
            return;
        };
        // give_up: RFC 4380, section 5.2.6
        if self.peers.is_spent(now, who) {
            self.give_up(now, who, step);
            return;
        }
        // bubbles, test: RFC 4380, sections 5.2.6 and 5.2.9
        self.try_again(now, who, step);
    }

    /// Drops the packets that wait for a peer.
    fn give_up(&mut self, now: Millis, who: Ip6, step: &mut Step)
        requires callable { IsCallable self.old now.0 }
        requires overdue { IsOverdue self.old.peers now.0 who }
        ensures step { step.new ≡ tries_peer true (settings_of self.old) self.old.qualifier.now
            (record { who = who; peer = known_to self.old.peers now.0 who }) (words_ahead self.old) }
        ensures entered { Enters self.old (entry now.0 ticked None (Some who) (words_ahead self.old) step.new) self.new }
        ensures less { PutsOff self.old self.new now.0 step.new }
    {
        let gone = self.peers.give_up(now, who);
        step.reset(Fate::GiveUp);
        step.set_gone(u16::from(gone));
    }

    /// Tries a peer for which packets wait.
    fn try_again(&mut self, now: Millis, who: Ip6, step: &mut Step)
        requires callable { IsCallable self.old now.0 }
        requires overdue { IsOverdue self.old.peers now.0 who }
        ensures step { step.new ≡ tries_peer false (settings_of self.old) self.old.qualifier.now
            (record { who = who; peer = known_to self.old.peers now.0 who }) (words_ahead self.old) }
        ensures entered { Enters self.old (entry now.0 ticked None (Some who) (words_ahead self.old) step.new) self.new }
        ensures less { PutsOff self.old self.new now.0 step.new }
    {
        let own = self.own_address();
        let fate = fate_of_try(who);
        let settings = self.qualifier.settings();
        let nonce = send_try(settings, own, who, fate, &mut self.rng, step);
        self.peers.tried(now, who, nonce);
    }

    /// When something is due: of the phase or the refresh, or of the peers.
    pub(crate) fn next_due(&self, now: Millis) -> Option<Millis>
        requires callable { IsCallable self.now now.0 }
        ensures told { IsClientDue self.now now.0 result }
        ensures first { IsFirstDue (owing self.now) now.0 result }
    {
        sooner(self.qualifier.due(), self.peers.next_due(now))
    }

    /// The moment before which nothing is due, whenever it is asked; `None` where nothing is due at all. It is that of the
    /// phase or the refresh, or of one peer, listed or not, and so nothing need be due then.
    pub fn quiet_until(&self) -> Option<Millis>
        /// Nothing is due of a client before the moment that `quiet_until` answers, whenever it is asked, and nothing
        /// at all where it answers none. This holds for every journal that it stands for. It is stated in
        /// `peer_list/Overdue.antt`, over `client_rules/Journals.antt`.
        /// Leaves open: that something is due then.
        ensures none { (m : ℕ) → IsNoSooner m (option_map (λ at. at.0) result)
            → (j : Journal) (n : ℕ) → ClientStandsFor self.now j → self.now.peers.moment ≤ n → IsNoSooner m (client_due (settings_of self.now) j n) }
        /// See `none`.
        ensures some { (m : ℕ) → IsSooner m (option_map (λ at. at.0) result) → MayBeDue self.now m }
    {
        sooner(self.qualifier.due(), self.peers.quiet_until())
    }
}
