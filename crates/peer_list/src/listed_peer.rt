//! A peer that is listed.
ghost use Rattle.std.specs.Prelude.{◌≡◌, ◌≤◌, ◌<◌, ◌+◌, ◌&&◌, not, ℕ, false, true, [], ◌++◌, ◌∷◌, map, length, option_map, IfOk, OnOk, OnErr};
ghost use Rattle.std.specs.List.{AllByRecursion};
ghost use Rattle.ipv6_packet.specs.declared.header.TheConstants.{PACKET_MAX};
ghost use Rattle.td_base.specs.declared.millis.TheConstants.{CLOCK_END_MS};
ghost use Rattle.teredo_node.specs.Sends.{releases};
ghost use Rattle.peer_list.specs.Peers.{no_peer};
ghost use Rattle.peer_list.specs.Judged.{is_within, is_none, is_fresh, is_spent, is_barred, is_full, holds_most};
ghost use Rattle.peer_list.specs.Judged.{held_from, held_elsewhere, is_trusted_at, due_of};
ghost use Rattle.peer_list.specs.Waiting.{kept_count};
ghost use Rattle.peer_list.specs.Calls.{touched_at, trusted_at, heard_at, tried_at, queued_at, holding, emptied, changed_at, IsInTime};

use crate::change::Change;
use crate::held::Held;
use crate::limits::{FRESH_MS, HELD_MAX, LISTED_MS, TRIES_MAX, WAITING_MAX};
use crate::tries::{self, Tries};
use std::alloc::Global;
use std::marker::Model;
use td_base::{Ep, Millis, NoMemory, Octets, Side};
use teredo_node::Step;

/// What is known of a listed peer.
#[derive(Drop)]
pub struct Peer {
    touched: Millis,
    trusted: Option<Ep>,
    heard: Option<Millis>,
    tries: Tries,
    nonce: Option<u64>,
    waiting: Vec<Octets>,
    held: Vec<Held>,
}

// No clause sees a field that nothing reads: so it is its parts, and no byte more.
const _: () = prove_eq!(
    size_of::<Peer>(),
    size_of::<
        (
            Millis,
            Option<Ep>,
            Option<Millis>,
            Tries,
            Option<u64>,
            Vec<Octets>,
            Vec<Held>
        )
    >()
);

impl Model for Peer {
    ghost use Rattle.std.specs.Prelude.{Some, option_map};
    ghost use Rattle.td_base.specs.declared.millis.Millis.{Millis};
    ghost use Rattle.peer_list.specs.Peers.{Peer};
    ghost use Rattle.peer_list.specs.Bounds.{CanWait, CanHold};

    ghost Value = { Peer };

    ghost view = { λ s. record {
      touched = Some s.touched.0;
      trusted = s.trusted;
      heard = option_map (λ (m : Millis). m.0) s.heard;
      tries = s.tries;
      nonce = s.nonce;
      waiting = s.waiting.items;
      held = s.held.items;
    } };

    ghost invariant = { λ s. CanWait s.waiting.items × CanHold s.held.items };
}

impl Peer {
    /// A peer that is listed from now on.
    pub(crate) fn new(alloc: Global, now: Millis) -> Peer
        ensures { result ≡ touched_at now.0 no_peer }
    {
        Peer {
            touched: now,
            trusted: None,
            heard: None,
            tries: Tries::new(),
            nonce: None,
            waiting: Vec::new(alloc),
            held: Vec::new(alloc),
        }
    }

    /// When it was last touched.
    pub fn touched(&self) -> Millis
        /// See `Peer::is_fresh`.
        ensures { self.now.touched ≡ Some result.0 }
    {
        self.touched
    }

    /// Where it is trusted.
    pub fn trusted(&self) -> Option<Ep>
        /// See `Peer::is_fresh`.
        ensures { result ≡ self.now.trusted }
    {
        self.trusted
    }

    /// When it was last heard.
    pub fn heard(&self) -> Option<Millis>
        /// See `Peer::is_fresh`.
        ensures { self.now.heard ≡ option_map (λ m. m.0) result }
    {
        self.heard
    }

    /// When it was tried since it was heard, the latest first.
    pub fn tries(&self) -> &[Millis]
        /// See `Peer::is_fresh`.
        ensures value { self.now.tries ≡ map (λ m. m.0) result.now }
        /// See `Peer::is_fresh`.
        ensures most { length result.now ≤ TRIES_MAX }
    {
        self.tries.as_slice()
    }

    /// The nonce of the latest test since it was trusted.
    pub fn nonce(&self) -> Option<u64>
        /// See `Peer::is_fresh`.
        ensures { result ≡ self.now.nonce }
    {
        self.nonce
    }

    /// The packets that wait for it, in the order in which they came.
    pub fn waiting(&self) -> &[Octets]
        /// See `Peer::is_fresh`.
        ensures value { result.now ≡ self.now.waiting }
        /// See `Peer::is_fresh`.
        ensures most { length result.now ≤ WAITING_MAX }
        /// See `Peer::is_fresh`.
        ensures short { AllByRecursion (λ x. length x ≤ PACKET_MAX) result.now }
    {
        self.waiting.as_slice()
    }

    /// Whether it is still listed.
    pub(crate) fn is_listed(&self, now: Millis) -> bool
        ensures { result ≡ is_within LISTED_MS now.0 self.now.touched }
    {
        tries::is_young(LISTED_MS, now, self.touched)
    }

    /// Whether it is still listed, and packets wait for it.
    pub(crate) fn waits(&self, now: Millis) -> bool
        ensures { result ≡ (is_within LISTED_MS now.0 self.now.touched && not (is_none self.now.waiting)) }
    {
        self.is_listed(now) && !self.is_idle()
    }

    /// Whether no packet waits for it.
    pub(crate) fn is_idle(&self) -> bool
        ensures { result ≡ is_none self.now.waiting }
    {
        self.waiting.is_empty()
    }

    /// Whether it is trusted at this very endpoint, port and all.
    #[tactic(auto, unfolding(crate::specs::Judged::is_trusted_at))]
    pub fn is_trusted_at(&self, from: Ep) -> bool
        /// See `Peer::is_fresh`.
        ensures { result ≡ is_trusted_at from self.now }
    {
        match self.trusted {
            None => false,
            Some(at) => at == from,
        }
    }

    /// Whether packets go to it without a try: RFC 4380, section 5.2.4.
    #[tactic(auto, unfolding(crate::specs::Judged::is_fresh))]
    pub fn is_fresh(&self, now: Millis) -> bool
        /// A peer that was found is judged by the same definitions, and tells what is known of it, and when its next
        /// try is due. At most four tries are kept, and eight packets of at most 1,280 bytes.
        ensures { result ≡ is_fresh now.0 self.now }
    {
        match self.heard {
            None => false,
            Some(heard) => self.trusted.is_some() && tries::is_young(FRESH_MS, now, heard),
        }
    }

    /// Whether no further try helps: RFC 4380, section 5.2.6.
    #[tactic(auto, unfolding(crate::specs::Judged::is_spent))]
    pub fn is_spent(&self, now: Millis) -> bool
        /// See `Peer::is_fresh`.
        ensures { result ≡ is_spent now.0 self.now }
    {
        self.tries.is_spent(now)
    }

    /// Whether it may not be tried now: RFC 4380, section 5.2.6.
    #[tactic(auto, unfolding(crate::specs::Judged::is_barred, crate::specs::Judged::is_spent))]
    pub fn is_barred(&self, now: Millis) -> bool
        /// See `Peer::is_fresh`.
        ensures { result ≡ is_barred now.0 self.now }
    {
        self.tries.is_spent(now) || self.tries.is_recent(now)
    }

    /// Whether no further packet may wait for it.
    #[tactic(auto, unfolding(crate::specs::Judged::is_full))]
    pub fn is_full(&self) -> bool
        /// See `Peer::is_fresh`.
        ensures { result ≡ is_full self.now }
    {
        WAITING_MAX <= self.waiting.len()
    }

    /// Whether no further packet from it may be held.
    #[tactic(auto, unfolding(crate::specs::Judged::holds_most))]
    pub fn holds_most(&self) -> bool
        /// See `Peer::is_fresh`.
        ensures { result ≡ holds_most self.now }
    {
        HELD_MAX <= self.held.len()
    }

    /// When its next try is due.
    #[tactic(auto, unfolding(crate::specs::Judged::due_of))]
    pub fn due(&self) -> Millis
        /// See `Peer::is_fresh`.
        ensures { result.0 ≡ due_of self.now }
    {
        self.tries.next()
    }

    /// How many packets wait for it.
    pub fn waiting_count(&self) -> u8
        /// See `Peer::is_fresh`.
        ensures { result ≡ length self.now.waiting }
    {
        self.waiting.len() as u8
    }

    /// How many packets from it are held.
    pub fn held_count(&self) -> u8
        /// See `Peer::is_fresh`.
        ensures { result ≡ length self.now.held }
    {
        self.held.len() as u8
    }

    /// How many packets wait for it or are held.
    pub(crate) fn kept_count(&self) -> u16
        ensures count { result ≡ kept_count self.now }
        ensures most { result ≤ WAITING_MAX + HELD_MAX }
    {
        (self.waiting.len() + self.held.len()) as u16
    }

    /// Sends the packets that wait for it, in order, to one endpoint.
    pub(crate) fn send_waiting(&self, to: Ep, step: &mut Step)
        requires { step.old.sends ≡ [] }
        ensures { step.new ≡ record step.old { sends = releases to self.now.waiting } }
    {
        for packet in &self.waiting {
            step.push(Side::Primary, to, packet.as_slice());
        }
    }

    /// Hands over late, in order, the held packets that came from an endpoint, and says how many came from elsewhere.
    pub(crate) fn hand_late(&self, from: Ep, step: &mut Step) -> u8
        requires { step.old.late ≡ [] }
        ensures late { step.new ≡ record step.old { late = held_from from self.now.held } }
        ensures elsewhere { result ≡ held_elsewhere from self.now.held }
    {
        let mut elsewhere: u8 = 0;
        for held in &self.held {
            if held.from == from {
                step.push_late(held.packet.as_slice());
            } else {
                elsewhere += 1;
            }
        }
        elsewhere
    }

    /// Changes what is known of it.
    pub(crate) fn change(&mut self, now: Millis, change: Change)
        requires { IsInTime now.0 change }
        ensures { self.new ≡ changed_at now.0 change self.old }
    {
        match change {
            Change::Touch => self.touch(now),
            Change::Trust(at) => self.trust(now, at),
            Change::Hear => self.hear(now),
            Change::TrustAndHear(at) => {
                self.trust(now, at);
                self.hear(now);
            }
            Change::Try(nonce) => self.note_try(now, nonce),
            Change::GiveUp => self.give_up(),
        }
    }

    fn touch(&mut self, now: Millis)
        ensures { self.new ≡ touched_at now.0 self.old }
    {
        self.touched = now;
    }

    fn trust(&mut self, now: Millis, at: Ep)
        ensures { self.new ≡ trusted_at now.0 at self.old }
    {
        self.touched = now;
        self.trusted = Some(at);
        self.tries.clear();
        self.nonce = None;
    }

    fn hear(&mut self, now: Millis)
        ensures { self.new ≡ heard_at now.0 self.old }
    {
        self.touched = now;
        self.heard = Some(now);
        self.tries.clear();
        self.give_up();
        self.held.clear();
    }

    fn note_try(&mut self, now: Millis, nonce: Option<u64>)
        requires { now.0 < CLOCK_END_MS }
        ensures { self.new ≡ tried_at now.0 nonce self.old }
    {
        self.touched = now;
        self.tries.push(now);
        self.nonce = nonce.or(self.nonce);
    }

    fn give_up(&mut self)
        ensures { self.new ≡ emptied self.old }
    {
        self.waiting.clear();
    }

    /// Lets a packet wait, and touches the peer. A refusal leaves it as it was.
    #[tactic(auto, unfolding(crate::specs::Judged::is_full))]
    pub(crate) fn wait(&mut self, alloc: Global, now: Millis, packet: &[u8]) -> Result<(), NoMemory>
        requires free { is_full self.old ≡ false }
        requires short { length packet.now ≤ PACKET_MAX }
        ensures queued { OnOk result (self.new ≡ queued_at now.0 packet.now self.old) }
        ensures kept { OnErr result (self.new ≡ self.old) }
    {
        self.waiting.push(Octets::new(alloc, packet)?)?;
        self.touched = now;
        Ok(())
    }

    /// Holds a packet that came from an endpoint. It doesn't touch the peer. A refusal leaves it as it was.
    #[tactic(auto, unfolding(crate::specs::Judged::holds_most))]
    pub(crate) fn hold(&mut self, alloc: Global, from: Ep, packet: &[u8]) -> Result<(), NoMemory>
        requires free { holds_most self.old ≡ false }
        requires short { length packet.now ≤ PACKET_MAX }
        ensures held { OnOk result (self.new ≡ holding from packet.now self.old) }
        ensures kept { OnErr result (self.new ≡ self.old) }
    {
        let packet = Octets::new(alloc, packet)?;
        self.held.push(Held { from, packet })?;
        Ok(())
    }
}
