//! What is done with the peers that a node keeps.
ghost use Rattle.std.specs.Prelude.{◌≡◌, ◌≤◌, ◌<◌, [], true, false, length, Some, is_some, OnOk, OnErr};
ghost use Rattle.ipv6_packet.specs.declared.header.TheConstants.{PACKET_MAX};
ghost use Rattle.td_base.specs.declared.millis.TheConstants.{CLOCK_END_MS};
ghost use Rattle.teredo_node.specs.Sends.{releases};
ghost use Rattle.peer_list.specs.Judged.{is_full, holds_most};
ghost use Rattle.peer_list.specs.Table.{empty_table, peer_in, known_to, has_room_in};
ghost use Rattle.peer_list.specs.Overdue.{overdue_in, IsOverdue};
ghost use Rattle.peer_list.specs.Calls.{touched_at, trusted_at, heard_at, tried_at, queued_at, held_at, emptied, changed_at, IsInTime, Updates, Keeps};
ghost use Rattle.peer_list.specs.Stands.{StandsForMentions};

use crate::change::Change;
use crate::listings;
use crate::table::Peers;
use td_base::{Ep, Ip6, Millis, NoMemory};
use teredo_node::Step;

/// Notes the peer of a call that wasn't refused.
fn note(latest: &mut Option<Ip6>, who: Ip6, done: Result<(), NoMemory>) -> Result<(), NoMemory>
    ensures same { result ≡ done }
    ensures noted { OnOk done (latest.new ≡ Some who) }
    ensures kept { OnErr done (latest.new ≡ latest.old) }
{
    match done {
        Ok(()) => {
            *latest = Some(who);
            Ok(())
        }
        Err(fault) => Err(fault),
    }
}

impl Peers {
    /// Lists and touches a peer for which there is room. A refusal leaves all as it was.
    pub fn list(&mut self, now: Millis, who: Ip6) -> Result<(), NoMemory>
        requires clock { self.old.moment ≤ now.0 }
        requires room { has_room_in self.old now.0 who ≡ true }
        /// `list` lists and touches; a peer that wasn't listed begins with nothing.
        /// Needs: moments don't fall; the peer is listed, or fewer than 256 are; memory.
        ensures listed { OnOk result (Updates self.old self.new now.0 who (touched_at now.0 (known_to self.old now.0 who))) }
        /// `list`, `wait` and `hold` refuse only for lack of memory, and then the same is known of each address; `list`
        /// refuses only where the peer wasn't listed.
        /// Needs: the peer is listed, or fewer than 256 are; fewer than four packets are held of it; at most 1,280
        /// bytes.
        ensures kept { OnErr result (Keeps self.old self.new now.0) }
        /// See `kept`.
        ensures unlisted { OnErr result (is_some (peer_in self.old now.0 who) ≡ false) }
    {
        self.moment = now;
        let listed = listings::list(&mut self.entries, self.alloc, now, who);
        note(&mut self.latest, who, listed)
    }

    /// Lets a packet wait for a peer that has room for it, which it lists and touches. A refusal leaves all as it was.
    pub fn wait(&mut self, now: Millis, who: Ip6, packet: &[u8]) -> Result<(), NoMemory>
        requires clock { self.old.moment ≤ now.0 }
        requires room { has_room_in self.old now.0 who ≡ true }
        requires free { is_full (known_to self.old now.0 who) ≡ false }
        requires short { length packet.now ≤ PACKET_MAX }
        /// `wait` lists, touches, and puts the packet behind those that wait.
        /// Needs: moments don't fall; the peer is listed, or fewer than 256 are; memory; fewer than eight packets wait
        /// for it; at most 1,280 bytes.
        ensures queued { OnOk result (Updates self.old self.new now.0 who (queued_at now.0 packet.now (known_to self.old now.0 who))) }
        /// See `Peers::list`: `kept`.
        ensures kept { OnErr result (Keeps self.old self.new now.0) }
    {
        self.moment = now;
        let queued = listings::wait(&mut self.entries, self.alloc, now, who, packet);
        note(&mut self.latest, who, queued)
    }

    /// Holds a packet that came from an endpoint, of a peer that has room for it: where it isn't listed it is listed and
    /// touched, and a listed one isn't touched. A refusal leaves all as it was.
    pub fn hold(&mut self, now: Millis, who: Ip6, from: Ep, packet: &[u8]) -> Result<(), NoMemory>
        requires clock { self.old.moment ≤ now.0 }
        requires room { has_room_in self.old now.0 who ≡ true }
        requires free { holds_most (known_to self.old now.0 who) ≡ false }
        requires short { length packet.now ≤ PACKET_MAX }
        /// `hold` puts a packet, with where it came from, behind those that are held; it lists and touches a peer that
        /// isn't listed, and no listed one.
        /// Needs: the peer is listed, or fewer than 256 are; fewer than four packets are held of it; at most 1,280
        /// bytes.
        ensures held { OnOk result (Updates self.old self.new now.0 who (held_at now.0 from packet.now (known_to self.old now.0 who))) }
        /// See `Peers::list`: `kept`.
        ensures kept { OnErr result (Keeps self.old self.new now.0) }
    {
        self.moment = now;
        let held = listings::hold(&mut self.entries, self.alloc, now, who, from, packet);
        note(&mut self.latest, who, held)
    }

    /// Changes what is known of a listed peer, and nothing of any other.
    fn change(&mut self, now: Millis, who: Ip6, change: Change)
        requires clock { self.old.moment ≤ now.0 }
        requires listed { is_some (peer_in self.old now.0 who) ≡ true }
        requires early { IsInTime now.0 change }
        ensures { Updates self.old self.new now.0 who (changed_at now.0 change (known_to self.old now.0 who)) }
    {
        self.moment = now;
        self.latest = Some(who);
        let key = self.entries.key(who);
        self.entries.change(key, now, change);
    }

    /// The same, where first what waits for the peer goes to an endpoint, in order. The peer is looked for once.
    fn release(&mut self, now: Millis, who: Ip6, to: Ep, change: Change, step: &mut Step)
        requires clock { self.old.moment ≤ now.0 }
        requires listed { is_some (peer_in self.old now.0 who) ≡ true }
        requires early { IsInTime now.0 change }
        requires first { step.old.sends ≡ [] }
        ensures sends { step.new ≡ record step.old { sends = releases to (known_to self.old now.0 who).waiting } }
        ensures changed { Updates self.old self.new now.0 who (changed_at now.0 change (known_to self.old now.0 who)) }
    {
        let key = self.entries.key(who);
        let peer = self.entries.peer_under(key, who);
        peer.send_waiting(to, step);
        self.moment = now;
        self.latest = Some(who);
        self.entries.change(key, now, change);
    }

    /// Touches a listed peer: it stays listed for `LISTED_MS` from now.
    pub fn touch(&mut self, now: Millis, who: Ip6)
        requires clock { self.old.moment ≤ now.0 }
        requires listed { is_some (peer_in self.old now.0 who) ≡ true }
        /// A call that enters something of a peer changes what its entry names, and nothing else of any peer.
        /// Needs: moments don't fall; the peer is listed.
        ensures { Updates self.old self.new now.0 who (touched_at now.0 (known_to self.old now.0 who)) }
    {
        self.change(now, who, Change::Touch);
    }

    /// Touches a listed peer, and trusts it at an endpoint from now on. What was tried is over, a test too.
    pub fn trust(&mut self, now: Millis, who: Ip6, at: Ep)
        requires clock { self.old.moment ≤ now.0 }
        requires listed { is_some (peer_in self.old now.0 who) ≡ true }
        /// See `Peers::touch`.
        ensures { Updates self.old self.new now.0 who (trusted_at now.0 at (known_to self.old now.0 who)) }
    {
        self.change(now, who, Change::Trust(at));
    }

    /// Touches a listed peer of which a direct reception came: what was tried is over, what waits goes to an endpoint, in
    /// order, and nothing is held any more: what is to be handed over is taken before.
    pub fn hear(&mut self, now: Millis, who: Ip6, to: Ep, step: &mut Step)
        requires clock { self.old.moment ≤ now.0 }
        requires listed { is_some (peer_in self.old now.0 who) ≡ true }
        requires first { step.old.sends ≡ [] }
        /// A direct reception sends all that waits for the peer, in order, to one endpoint.
        /// Needs: moments don't fall; the peer is listed; the step has no sends.
        ensures sends { step.new ≡ record step.old { sends = releases to (known_to self.old now.0 who).waiting } }
        /// See `Peers::touch`.
        ensures heard { Updates self.old self.new now.0 who (heard_at now.0 (known_to self.old now.0 who)) }
    {
        self.release(now, who, to, Change::Hear, step);
    }

    /// The same of a peer that is trusted from now on at the endpoint to which what waits goes.
    pub fn trust_and_hear(&mut self, now: Millis, who: Ip6, at: Ep, step: &mut Step)
        requires clock { self.old.moment ≤ now.0 }
        requires listed { is_some (peer_in self.old now.0 who) ≡ true }
        requires first { step.old.sends ≡ [] }
        /// See `Peers::hear`: `sends`.
        ensures sends { step.new ≡ record step.old { sends = releases at (known_to self.old now.0 who).waiting } }
        /// See `Peers::touch`.
        ensures heard { Updates self.old self.new now.0 who (heard_at now.0 (trusted_at now.0 at (known_to self.old now.0 who))) }
    {
        self.release(now, who, at, Change::TrustAndHear(at), step);
    }

    /// Touches a listed peer that was tried, where there is one with a test and its nonce. Whether it may be tried is
    /// the caller's question: `is_barred`.
    pub fn tried(&mut self, now: Millis, who: Ip6, nonce: Option<u64>)
        requires clock { self.old.moment ≤ now.0 }
        requires early { now.0 < CLOCK_END_MS }
        requires listed { is_some (peer_in self.old now.0 who) ≡ true }
        /// See `Peers::touch`.
        ensures tried { Updates self.old self.new now.0 who (tried_at now.0 nonce (known_to self.old now.0 who)) }
        /// After a try, and after giving up, of a peer that was due, less is due. What is due counts the packets that
        /// wait for listed peers that are due, and no held one.
        /// Needs: moments don't fall; the peer is listed.
        ensures less { IsOverdue self.old now.0 who → overdue_in self.new now.0 < overdue_in self.old now.0 }
    {
        self.change(now, who, Change::Try(nonce));
    }

    /// Drops the packets that wait for a peer, and says how many there were. It doesn't touch the peer.
    pub fn give_up(&mut self, now: Millis, who: Ip6) -> u8
        requires clock { self.old.moment ≤ now.0 }
        requires listed { is_some (peer_in self.old now.0 who) ≡ true }
        /// `give_up` says how many packets it dropped.
        /// Needs: moments don't fall; the peer is listed.
        ensures count { result ≡ length (known_to self.old now.0 who).waiting }
        /// See `Peers::touch`.
        ensures rest { Updates self.old self.new now.0 who (emptied (known_to self.old now.0 who)) }
        /// See `Peers::tried`: `less`.
        ensures less { IsOverdue self.old now.0 who → overdue_in self.new now.0 < overdue_in self.old now.0 }
    {
        let count = self.peer(now, who).waiting_count();
        self.change(now, who, Change::GiveUp);
        count
    }

    /// Takes out all peers: it is as a new one.
    pub fn clear(&mut self)
        /// See `Peers::new`: `empty`.
        ensures empty { self.new ≡ empty_table }
        /// See `Peers::new`: `empty`.
        ensures stands { StandsForMentions self.new [] }
    {
        self.moment = Millis(0);
        self.latest = None;
        self.entries.clear();
    }
}
