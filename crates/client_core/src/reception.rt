//! What a client does with a datagram.
ghost use Rattle.std.specs.Prelude.{◌≡◌, ◌≤◌, ◌+◌, true, false, [], length, is_some, Some, OnOk, OnErr};
ghost use Rattle.td_base.specs.declared.datagram.TheConstants.{DATAGRAM_MAX};
ghost use Rattle.ipv6_packet.specs.declared.header.TheConstants.{HEADER, PACKET_MAX};
ghost use Rattle.ipv6_packet.specs.Packets.{packet_bytes};
ghost use Rattle.td_base.specs.declared.endpoint.Ep.{Ep};
ghost use Rattle.indications.specs.Leads.{origin_in};
ghost use Rattle.bubble.specs.Payloads.{payload_view};
ghost use Rattle.teredo_node.specs.declared.fate.Fate.{Fate};
ghost use Rattle.teredo_node.specs.Journal.{arrived};
ghost use Rattle.teredo_node.specs.Step.{just};
ghost use Rattle.teredo_node.specs.Sends.{releases};
ghost use Rattle.teredo_node.specs.Words.{nonce_from};
ghost use Rattle.peer_list.specs.Judged.{holds_most};
ghost use Rattle.peer_list.specs.Table.{peer_in, known_to, has_room_in};
ghost use Rattle.peer_list.specs.Calls.{trusted_at, heard_at, tried_at, Updates};
ghost use Rattle.qualify.specs.Generator.{after_words};
ghost use Rattle.client_rules.specs.Reception.{hands_late};
ghost use Rattle.qualify.specs.Advertisements.{advert_row};
ghost use Rattle.client_core.specs.Client.{settings_of, words_ahead, fate_in, IsCallable, Does, TakesPayload, AsBefore, KeepsPlace, WantsPlace};
ghost use Rattle.client_core.specs.Lines.{tested, OnlyPeers};

use crate::client::Client;
use crate::reception_line::{ReceptionLine, line_of};
use crate::tries::{send_bubble, send_test};
use bubble::Payload;
use ipv6_packet::HEADER;
use qualify::words_of_advert;
use td_base::{Ep, Ip6, Millis, NoMemory, Span};
use teredo_node::{Fate, Step};

/// Begins a step that hands a payload's packet to the host.
fn hand_over(fate: Fate, payload: &Payload<'_>, step: &mut Step)
    requires { length payload.now.packet.body.now ≤ DATAGRAM_MAX }
    ensures { step.new ≡ record (just fate) { handed = Some (record { at = payload.now.lead.at; len = HEADER + length payload.now.packet.body.now }) } }
{
    step.reset(fate);
    step.set_handed(Span {
        at: payload.lead.at,
        len: HEADER + payload.packet.body.len(),
    });
}

impl Client {
    /// Takes a datagram that came from `from`. Memory may be wanting where it is to be held, or its source to be listed.
    pub(crate) fn receive(
        &mut self,
        now: Millis,
        from: Ep,
        bytes: &[u8],
        step: &mut Step,
    ) -> Result<(), NoMemory>
        requires callable { IsCallable self.old now.0 }
        ensures done { OnOk result (Does self.old now.0 (arrived from bytes.now) step.new self.new) }
        ensures starved { OnErr result (WantsPlace self.old now.0 from bytes.now) }
        ensures as_before { OnErr result (AsBefore self.old self.new) }
        ensures again { OnErr result (IsCallable self.new now.0) }
        ensures untouched { OnErr result (step.new ≡ step.old) }
    {
        // malformed: our choice
        let Ok(payload) = bubble::read(bytes) else {
            step.reset(Fate::Malformed);
            return Ok(());
        };
        let packet = &bytes[payload.lead.at..];
        self.receive_payload(now, from, packet, &payload, step)
    }

    /// Takes a payload, whose packet is `packet`.
    fn receive_payload(
        &mut self,
        now: Millis,
        from: Ep,
        packet: &[u8],
        payload: &Payload<'_>,
        step: &mut Step,
    ) -> Result<(), NoMemory>
        requires callable { IsCallable self.old now.0 }
        requires short { length payload.now.packet.body.now ≤ DATAGRAM_MAX }
        requires packet { packet.now ≡ packet_bytes (payload_view payload.now).packet }
        requires long { length packet.now ≡ HEADER + length payload.now.packet.body.now }
        ensures done { OnOk result (TakesPayload self.old now.0 from (payload_view payload.now)
            (fate_in self.old now.0 from (payload_view payload.now)) step.new self.new) }
        ensures kept { OnErr result (KeepsPlace self.old now.0 (payload_view payload.now) (fate_in self.old now.0 from (payload_view payload.now)) self.new) }
        ensures untouched { OnErr result (step.new ≡ step.old) }
    {
        match line_of(self, now, from, payload) {
            ReceptionLine::Drop(fate) => {
                step.reset(fate);
                Ok(())
            }
            ReceptionLine::Advert => {
                self.take_advert(now, from, payload, step);
                Ok(())
            }
            ReceptionLine::Indirect(origin) => self.answer_bubble(now, origin, payload, step),
            ReceptionLine::Rule1 => {
                hand_over(Fate::Rule1, payload, step);
                self.hear_trusted(now, payload.packet.src, from, step);
                Ok(())
            }
            ReceptionLine::Rule1Bubble => {
                step.reset(Fate::Rule1Bubble);
                self.hear_trusted(now, payload.packet.src, from, step);
                Ok(())
            }
            ReceptionLine::Rule2 => {
                self.hand_late(now, payload.packet.src, from, step);
                Ok(())
            }
            ReceptionLine::Rule3 => self.admit(now, from, payload, step),
            ReceptionLine::Rule3Bubble => self.admit_bubble(now, from, payload, step),
            ReceptionLine::HeldTest => self.hold_and_test(now, from, packet, payload, step),
            ReceptionLine::SuspiciousTest => {
                self.test_source(now, payload, step);
                Ok(())
            }
            ReceptionLine::Held => self.hold_packet(now, from, packet, payload, step),
        }
    }

    /// Hears a listed peer where it is trusted: what is held of it is dropped.
    fn hear_trusted(&mut self, now: Millis, who: Ip6, from: Ep, step: &mut Step)
        requires callable { IsCallable self.old now.0 }
        requires listed { is_some (peer_in self.old.peers now.0 who) ≡ true }
        requires first { step.old.sends ≡ [] }
        ensures step { step.new ≡ record step.old {
          sends = releases from
              (known_to self.old.peers now.0 who).waiting;
          gone = length (known_to self.old.peers now.0 who).held;
        } }
        ensures heard { OnlyPeers self.old now.0 who (heard_at now.0 (known_to self.old.peers now.0 who)) self.new }
    {
        step.set_gone(u16::from(self.peers.held_count(now, who)));
        self.peers.hear(now, who, from, step);
    }

    /// A listed peer answered its test: it is trusted where the answer came from, and what is held from there is handed
    /// over.
    fn hand_late(&mut self, now: Millis, who: Ip6, from: Ep, step: &mut Step)
        requires callable { IsCallable self.old now.0 }
        requires listed { is_some (peer_in self.old.peers now.0 who) ≡ true }
        ensures step { step.new ≡ hands_late from (known_to self.old.peers now.0 who) }
        ensures heard { OnlyPeers self.old now.0 who (heard_at now.0 (trusted_at now.0 from (known_to self.old.peers now.0 who))) self.new }
    {
        step.reset(Fate::Rule2);
        let elsewhere = self.peers.hand_late(now, who, from, step);
        step.set_gone(u16::from(elsewhere));
        self.peers.trust_and_hear(now, who, from, step);
    }

    /// An advertisement of the server. A client that gets another address forgets its peers.
    fn take_advert(&mut self, now: Millis, from: Ep, payload: &Payload<'_>, step: &mut Step)
        requires callable { IsCallable self.old now.0 }
        requires short { length payload.now.packet.body.now ≤ DATAGRAM_MAX }
        ensures done { TakesPayload self.old now.0 from (payload_view payload.now) (advert_row (settings_of self.old) self.old.qualifier.now from
            (payload_view payload.now)) step.new self.new }
    {
        let fate = self.qualifier.on_advert(now, from, payload, &mut self.rng);
        step.reset(fate);
        step.set_drawn(words_of_advert(self.qualifier.settings(), fate));
        match fate {
            Fate::Changed => {
                step.set_gone(self.peers.waiting(now));
                self.peers.clear();
            }
            _ => {}
        }
    }

    /// A bubble came through the server: one goes back to its origin.
    fn answer_bubble(
        &mut self,
        now: Millis,
        origin: Ep,
        payload: &Payload<'_>,
        step: &mut Step,
    ) -> Result<(), NoMemory>
        requires callable { IsCallable self.old now.0 }
        requires origin { origin_in payload.now.lead ≡ Some origin }
        requires room { has_room_in self.old.peers now.0 payload.now.packet.src ≡ true }
        ensures done { (from : Ep) → OnOk result (TakesPayload self.old now.0 from (payload_view payload.now) Fate.Indirect step.new self.new) }
        ensures kept { OnErr result (KeepsPlace self.old now.0 (payload_view payload.now) Fate.Indirect self.new) }
        ensures untouched { OnErr result (step.new ≡ step.old) }
    {
        let who = payload.packet.src;
        self.peers.list(now, who)?;
        step.reset(Fate::Indirect);
        send_bubble(self.own_address(), who, origin, step);
        self.peers.tried(now, who, None);
        self.qualifier.heard_server(now);
        Ok(())
    }

    /// A packet came from another client itself, which is trusted where that came from.
    fn admit(
        &mut self,
        now: Millis,
        from: Ep,
        payload: &Payload<'_>,
        step: &mut Step,
    ) -> Result<(), NoMemory>
        requires callable { IsCallable self.old now.0 }
        requires short { length payload.now.packet.body.now ≤ DATAGRAM_MAX }
        requires room { has_room_in self.old.peers now.0 payload.now.packet.src ≡ true }
        ensures done { OnOk result (TakesPayload self.old now.0 from (payload_view payload.now) Fate.Rule3 step.new self.new) }
        ensures kept { OnErr result (KeepsPlace self.old now.0 (payload_view payload.now) Fate.Rule3 self.new) }
        ensures untouched { OnErr result (step.new ≡ step.old) }
    {
        let who = payload.packet.src;
        self.peers.list(now, who)?;
        hand_over(Fate::Rule3, payload, step);
        self.peers.trust_and_hear(now, who, from, step);
        Ok(())
    }

    /// The same of a bubble, which isn't handed over.
    fn admit_bubble(
        &mut self,
        now: Millis,
        from: Ep,
        payload: &Payload<'_>,
        step: &mut Step,
    ) -> Result<(), NoMemory>
        requires callable { IsCallable self.old now.0 }
        requires room { has_room_in self.old.peers now.0 payload.now.packet.src ≡ true }
        ensures done { OnOk result (TakesPayload self.old now.0 from (payload_view payload.now) Fate.Rule3Bubble step.new self.new) }
        ensures kept { OnErr result (KeepsPlace self.old now.0 (payload_view payload.now) Fate.Rule3Bubble self.new) }
        ensures untouched { OnErr result (step.new ≡ step.old) }
    {
        let who = payload.packet.src;
        self.peers.list(now, who)?;
        step.reset(Fate::Rule3Bubble);
        self.peers.trust_and_hear(now, who, from, step);
        Ok(())
    }

    /// A packet came from an unknown source: it is held, and a test goes there.
    fn hold_and_test(
        &mut self,
        now: Millis,
        from: Ep,
        packet: &[u8],
        payload: &Payload<'_>,
        step: &mut Step,
    ) -> Result<(), NoMemory>
        requires callable { IsCallable self.old now.0 }
        requires room { has_room_in self.old.peers now.0 payload.now.packet.src ≡ true }
        requires free { holds_most (known_to self.old.peers now.0 payload.now.packet.src) ≡ false }
        requires short { length packet.now ≤ PACKET_MAX }
        requires packet { packet.now ≡ packet_bytes (payload_view payload.now).packet }
        ensures done { OnOk result (TakesPayload self.old now.0 from (payload_view payload.now) Fate.HeldTest step.new self.new) }
        ensures kept { OnErr result (KeepsPlace self.old now.0 (payload_view payload.now) Fate.HeldTest self.new) }
        ensures untouched { OnErr result (step.new ≡ step.old) }
    {
        let who = payload.packet.src;
        self.peers.hold(now, who, from, packet)?;
        self.test_peer(now, who, Fate::HeldTest, step);
        Ok(())
    }

    /// A packet came from an unknown source of which no more packets may be held: a test goes there.
    fn test_source(&mut self, now: Millis, payload: &Payload<'_>, step: &mut Step)
        requires callable { IsCallable self.old now.0 }
        requires listed { is_some (peer_in self.old.peers now.0 payload.now.packet.src) ≡ true }
        ensures { (from : Ep) → TakesPayload self.old now.0 from (payload_view payload.now) Fate.SuspiciousTest step.new self.new }
    {
        self.test_peer(now, payload.packet.src, Fate::SuspiciousTest, step);
    }

    /// A packet came from a source that is being tested: it is held.
    fn hold_packet(
        &mut self,
        now: Millis,
        from: Ep,
        packet: &[u8],
        payload: &Payload<'_>,
        step: &mut Step,
    ) -> Result<(), NoMemory>
        requires callable { IsCallable self.old now.0 }
        requires listed { is_some (peer_in self.old.peers now.0 payload.now.packet.src) ≡ true }
        requires free { holds_most (known_to self.old.peers now.0 payload.now.packet.src) ≡ false }
        requires short { length packet.now ≤ PACKET_MAX }
        requires packet { packet.now ≡ packet_bytes (payload_view payload.now).packet }
        ensures done { OnOk result (TakesPayload self.old now.0 from (payload_view payload.now) Fate.Held step.new self.new) }
        ensures kept { OnErr result (KeepsPlace self.old now.0 (payload_view payload.now) Fate.Held self.new) }
        ensures untouched { OnErr result (step.new ≡ step.old) }
    {
        self.peers.hold(now, payload.packet.src, from, packet)?;
        step.reset(Fate::Held);
        Ok(())
    }

    /// Begins a step with this fate by a test of a listed peer.
    fn test_peer(&mut self, now: Millis, who: Ip6, fate: Fate, step: &mut Step)
        requires callable { IsCallable self.old now.0 }
        requires listed { is_some (peer_in self.old.peers now.0 who) ≡ true }
        ensures step { step.new ≡ tested self.old who fate }
        ensures peers { Updates self.old.peers self.new.peers now.0 who
            (tried_at now.0 (Some (nonce_from (words_ahead self.old))) (known_to self.old.peers now.0 who)) }
        ensures place { self.new.rng ≡ after_words 2 self.old.rng }
        ensures qualifier { self.new.qualifier ≡ self.old.qualifier }
    {
        let own = self.own_address();
        let settings = self.qualifier.settings();
        let nonce = send_test(settings, own, who, fate, &mut self.rng, step);
        self.peers.tried(now, who, Some(nonce));
    }
}
