//! What a relay does with a datagram.
ghost use Rattle.std.specs.Prelude.{◌≡◌, ◌≤◌, ◌+◌, length, Some};
ghost use Rattle.td_base.specs.declared.datagram.TheConstants.{DATAGRAM_MAX};
ghost use Rattle.ipv6_packet.specs.declared.header.TheConstants.{HEADER};
ghost use Rattle.bubble.specs.Payloads.{payload_view};
ghost use Rattle.teredo_node.specs.declared.fate.Fate.{Fate};
ghost use Rattle.teredo_node.specs.Journal.{arrived};
ghost use Rattle.teredo_node.specs.Step.{just};
ghost use Rattle.relay_core.specs.Relay.{relay_fate_in, IsCallableRelay, RelayDoes, RelayTakesPayload};

use crate::reception_line::{ReceptionLine, line_of};
use crate::relay::Relay;
use bubble::Payload;
use ipv6_packet::HEADER;
use td_base::{Ep, Millis, Span};
use teredo_addr::embedded;
use teredo_node::{Fate, Step};

/// Begins a step that gives a payload's packet to the IPv6 side.
fn pass_on(payload: &Payload<'_>, step: &mut Step)
    requires { length payload.now.packet.body.now ≤ DATAGRAM_MAX }
    ensures { step.new ≡ record (just Fate.FromClient) { six = Some (record { at = payload.now.lead.at; len = HEADER + length payload.now.packet.body.now }) } }
{
    step.reset(Fate::FromClient);
    step.set_six(Span {
        at: payload.lead.at,
        len: HEADER + payload.packet.body.len(),
    });
}

impl Relay {
    /// Takes a datagram that came from `from`.
    pub(crate) fn receive(&mut self, now: Millis, from: Ep, bytes: &[u8], step: &mut Step)
        requires callable { IsCallableRelay self.old now.0 }
        ensures { RelayDoes self.old now.0 (arrived from bytes.now) step.new self.new }
    {
        // malformed: RFC 4380, section 5.4.2
        let Ok(payload) = bubble::read(bytes) else {
            step.reset(Fate::Malformed);
            return;
        };
        self.receive_payload(now, from, &payload, step);
    }

    /// Takes a payload.
    fn receive_payload(&mut self, now: Millis, from: Ep, payload: &Payload<'_>, step: &mut Step)
        requires callable { IsCallableRelay self.old now.0 }
        requires short { length payload.now.packet.body.now ≤ DATAGRAM_MAX }
        ensures { RelayTakesPayload self.old now.0 from (payload_view payload.now)
            (relay_fate_in self.old now.0 from (payload_view payload.now)) step.new self.new }
    {
        let who = payload.packet.src;
        let at = embedded(who);
        match line_of(self, now, from, payload) {
            ReceptionLine::Drop(fate) => step.reset(fate),
            ReceptionLine::FromClientBubble => {
                step.reset(Fate::FromClientBubble);
                self.peers.trust_and_hear(now, who, at, step);
            }
            ReceptionLine::FromClient => {
                pass_on(payload, step);
                self.peers.trust_and_hear(now, who, at, step);
            }
            ReceptionLine::Unserved => {
                step.reset(Fate::Unserved);
                self.peers.trust_and_hear(now, who, at, step);
            }
        }
    }
}
