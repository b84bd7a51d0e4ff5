//! What a client does with a packet of its host.
ghost use Rattle.std.specs.Prelude.{◌≡◌, ◌≤◌, true, false, Some, length, is_some, OnOk, OnErr};
ghost use Rattle.ipv6_packet.specs.declared.header.TheConstants.{PACKET_MAX};
ghost use Rattle.teredo_node.specs.Journal.{given};
ghost use Rattle.peer_list.specs.Judged.{is_barred, is_full};
ghost use Rattle.peer_list.specs.Table.{peer_in, known_to, has_room_in};
ghost use Rattle.peer_list.specs.Calls.{TriesUnless};
ghost use Rattle.client_rules.specs.Standing.{Standing};
ghost use Rattle.client_rules.specs.Tries.{try_nonce, try_words};
ghost use Rattle.client_rules.specs.Transmission.{queues};
ghost use Rattle.client_core.specs.Client.{settings_of, words_ahead, standing_in, IsCallable, Enters, Does, AsBefore, KeepsAll, WantsQueue};
ghost use Rattle.client_rules.specs.Journals.{entry};
ghost use Rattle.qualify.specs.Generator.{after_words};

use crate::client::Client;
use crate::transmission_line::{TransmissionLine, line_for};
use crate::tries::send_try;
use td_base::{Ip6, Millis, NoMemory, Side};
use teredo_addr::embedded;
use teredo_node::{Fate, Step};

impl Client {
    /// Takes a packet of the host. Memory may be wanting where the packet is to wait.
    pub fn on_host(&mut self, now: Millis, bytes: &[u8], step: &mut Step) -> Result<(), NoMemory>
        requires callable { IsCallable self.old now.0 }
        /// With a packet of its host a client does what its table says; with one of the IPv6 side nothing. This holds
        /// as it does for a datagram. It is stated in `Client.antt`, with the table in
        /// `client_rules/Transmission.antt`.
        ensures done { OnOk result (Does self.old now.0 (given bytes.now) step.new self.new) }
        /// Memory may run out for a packet of the host only where it is to wait. The line is `queued`.
        ensures starved { OnErr result (WantsQueue self.old now.0 bytes.now) }
        /// See `Client` as `Endpoint`: `as_before`.
        ensures as_before { OnErr result (AsBefore self.old self.new) }
        /// See `Client` as `Endpoint`: `as_before`.
        ensures again { OnErr result (IsCallable self.new now.0) }
        /// See `Client` as `Endpoint`: `as_before`.
        ensures untouched { OnErr result (step.new ≡ step.old) }
    {
        // off: RFC 4380, section 5.2.4
        let Some(own) = self.qualifier.address() else {
            step.reset(Fate::Off);
            return Ok(());
        };
        // malformed: our choice
        let Ok(packet) = ipv6_packet::read(bytes) else {
            step.reset(Fate::Malformed);
            return Ok(());
        };
        match line_for(self, now, own, &packet) {
            TransmissionLine::Drop(fate) => {
                step.reset(fate);
                Ok(())
            }
            TransmissionLine::Sent(to) => {
                step.reset(Fate::Sent);
                step.push(Side::Primary, to, bytes);
                self.peers.touch(now, packet.dst);
                Ok(())
            }
            TransmissionLine::SentCone => {
                step.reset(Fate::SentCone);
                step.push(Side::Primary, embedded(packet.dst), bytes);
                Ok(())
            }
            TransmissionLine::Queued => self.queue(now, packet.dst, bytes, step),
        }
    }

    /// Lets a packet wait, and tries its destination unless that is barred.
    fn queue(
        &mut self,
        now: Millis,
        who: Ip6,
        bytes: &[u8],
        step: &mut Step,
    ) -> Result<(), NoMemory>
        requires callable { IsCallable self.old now.0 }
        requires room { has_room_in self.old.peers now.0 who ≡ true }
        requires free { is_full (known_to self.old.peers now.0 who) ≡ false }
        requires short { length bytes.now ≤ PACKET_MAX }
        ensures step { OnOk result (step.new ≡ queues (is_barred now.0 (known_to self.old.peers now.0 who)) (settings_of self.old)
            (standing_in self.old now.0 who) who (words_ahead self.old)) }
        ensures entered { OnOk result (Enters self.old (entry now.0 (given bytes.now) (Some bytes.now) (Some who) (words_ahead self.old) step.new) self.new) }
        ensures kept { OnErr result (KeepsAll self.old now.0 self.new) }
        ensures untouched { OnErr result (step.new ≡ step.old) }
    {
        let barred = self.peers.is_barred(now, who);
        self.peers.wait(now, who, bytes)?;
        self.try_unless(barred, now, who, step);
        Ok(())
    }

    /// Tries a peer whose packet waits, unless it is barred.
    fn try_unless(&mut self, barred: bool, now: Millis, who: Ip6, step: &mut Step)
        requires callable { IsCallable self.old now.0 }
        requires listed { is_some (peer_in self.old.peers now.0 who) ≡ true }
        ensures step { (a : Standing) → a.qualification ≡ self.old.qualifier.now
            → step.new ≡ queues barred (settings_of self.old) a who (words_ahead self.old) }
        ensures peers { TriesUnless barred self.old.peers now.0 who (try_nonce who (words_ahead self.old)) self.new.peers }
        ensures place { self.new.rng ≡ after_words step.new.drawn self.old.rng }
        ensures qualifier { self.new.qualifier ≡ self.old.qualifier }
    {
        if barred {
            step.reset(Fate::Queued);
            return;
        }
        let own = self.own_address();
        let settings = self.qualifier.settings();
        let nonce = send_try(settings, own, who, Fate::Queued, &mut self.rng, step);
        self.peers.tried(now, who, nonce);
    }
}
