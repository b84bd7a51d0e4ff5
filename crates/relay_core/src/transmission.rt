//! What a relay does with a packet of the IPv6 side.
ghost use Rattle.std.specs.Prelude.{◌≡◌, ◌≤◌, ◌∷◌, [], true, false, Some, None, length, is_some, OnOk, OnErr};
ghost use Rattle.ipv6_packet.specs.declared.header.TheConstants.{PACKET_MAX};
ghost use Rattle.teredo_addr.specs.Teredo.{embedded, has_cone};
ghost use Rattle.teredo_node.specs.declared.fate.Fate.{Fate};
ghost use Rattle.teredo_node.specs.Journal.{from_six};
ghost use Rattle.teredo_node.specs.Sends.{send, sending};
ghost use Rattle.peer_list.specs.Judged.{is_barred, is_full};
ghost use Rattle.peer_list.specs.Table.{peer_in, known_to, has_room_in};
ghost use Rattle.peer_list.specs.Calls.{TriesUnless};
ghost use Rattle.relay_rules.specs.Transmission.{relay_queues};
ghost use Rattle.relay_rules.specs.Journals.{wordless_entry};
ghost use Rattle.relay_core.specs.Relay.{relay_settings_of, IsCallableRelay, RelayEnters, RelayDoes, RelayAsBefore, RelayKeepsAll, WantsMemory};

use crate::relay::Relay;
use crate::transmission_line::{TransmissionLine, line_for};
use td_base::{Ip6, Millis, NoMemory, Side};
use teredo_addr::embedded;
use teredo_node::{Fate, Step};

/// Begins a step with this fate by a packet to the endpoint that a client embeds.
fn send_packet(who: Ip6, fate: Fate, packet: &[u8], step: &mut Step)
    requires short { length packet.now ≤ PACKET_MAX }
    ensures { step.new ≡ sending fate (send (embedded who) packet.now ∷ []) }
{
    step.reset(fate);
    step.push(Side::Primary, embedded(who), packet);
}

impl Relay {
    /// Takes a packet of the IPv6 side. Memory may be wanting where the packet is to wait, or its destination to be
    /// listed.
    pub fn on_six(&mut self, now: Millis, bytes: &[u8], step: &mut Step) -> Result<(), NoMemory>
        requires callable { IsCallableRelay self.old now.0 }
        /// With a packet of the IPv6 side a relay does what its table says; with one of a host, which it hasn't,
        /// nothing. This holds as it does for a datagram. It is stated in `Relay.antt`, with the table in
        /// `relay_rules/Transmission.antt`.
        /// Leaves open: who handed the packet over.
        ensures done { OnOk result (RelayDoes self.old now.0 (from_six bytes.now) step.new self.new) }
        /// Memory may run out for such a packet only where it is to wait, or its line lists a destination that isn't
        /// listed. The line is `queued`, or `sent_cone` to an address that isn't listed.
        ensures starved { OnErr result (WantsMemory self.old now.0 bytes.now) }
        /// After memory ran out the relay is as before, and the step untouched. It stands for each journal that it
        /// stood for, at each moment from the call on.
        ensures as_before { OnErr result (RelayAsBefore self.old self.new) }
        /// See `as_before`.
        ensures again { OnErr result (IsCallableRelay self.new now.0) }
        /// See `as_before`.
        ensures untouched { OnErr result (step.new ≡ step.old) }
    {
        // malformed: our choice
        let Ok(packet) = ipv6_packet::read(bytes) else {
            step.reset(Fate::Malformed);
            return Ok(());
        };
        match line_for(self, now, &packet) {
            TransmissionLine::Drop(fate) => {
                step.reset(fate);
                Ok(())
            }
            TransmissionLine::Sent => {
                send_packet(packet.dst, Fate::Sent, bytes, step);
                self.peers.touch(now, packet.dst);
                Ok(())
            }
            TransmissionLine::SentCone => self.send_cone(now, packet.dst, bytes, step),
            TransmissionLine::Queued => self.queue(now, packet.dst, bytes, step),
        }
    }

    /// Sends a packet to a client behind a cone NAT, which is listed and trusted from now on.
    fn send_cone(
        &mut self,
        now: Millis,
        who: Ip6,
        bytes: &[u8],
        step: &mut Step,
    ) -> Result<(), NoMemory>
        requires callable { IsCallableRelay self.old now.0 }
        requires room { has_room_in self.old.peers now.0 who ≡ true }
        requires cone { has_cone who ≡ true }
        requires short { length bytes.now ≤ PACKET_MAX }
        ensures step { OnOk result (step.new ≡ sending Fate.SentCone (send (embedded who) bytes.now ∷ [])) }
        ensures entered { OnOk result (RelayEnters self.old (wordless_entry now.0 (from_six bytes.now) (Some bytes.now) (Some who) step.new) self.new) }
        ensures kept { OnErr result (RelayKeepsAll self.old now.0 self.new) }
        ensures unlisted { OnErr result (is_some (peer_in self.old.peers now.0 who) ≡ false) }
        ensures untouched { OnErr result (step.new ≡ step.old) }
    {
        self.peers.list(now, who)?;
        send_packet(who, Fate::SentCone, bytes, step);
        self.peers.trust(now, who, embedded(who));
        Ok(())
    }

    /// Lets a packet wait, and tries its destination unless that is barred.
    fn queue(
        &mut self,
        now: Millis,
        who: Ip6,
        bytes: &[u8],
        step: &mut Step,
    ) -> Result<(), NoMemory>
        requires callable { IsCallableRelay self.old now.0 }
        requires room { has_room_in self.old.peers now.0 who ≡ true }
        requires plain { has_cone who ≡ false }
        requires free { is_full (known_to self.old.peers now.0 who) ≡ false }
        requires short { length bytes.now ≤ PACKET_MAX }
        ensures step { OnOk result (step.new ≡ relay_queues (is_barred now.0 (known_to self.old.peers now.0 who)) (relay_settings_of self.old) who) }
        ensures entered { OnOk result (RelayEnters self.old (wordless_entry now.0 (from_six bytes.now) (Some bytes.now) (Some who) step.new) self.new) }
        ensures kept { OnErr result (RelayKeepsAll self.old now.0 self.new) }
        ensures untouched { OnErr result (step.new ≡ step.old) }
    {
        let barred = self.peers.is_barred(now, who);
        self.peers.wait(now, who, bytes)?;
        self.try_unless(barred, now, who, step);
        Ok(())
    }

    /// Tries a peer whose packet waits, unless it is barred.
    fn try_unless(&mut self, barred: bool, now: Millis, who: Ip6, step: &mut Step)
        requires callable { IsCallableRelay self.old now.0 }
        requires listed { is_some (peer_in self.old.peers now.0 who) ≡ true }
        ensures step { step.new ≡ relay_queues barred (relay_settings_of self.old) who }
        ensures peers { TriesUnless barred self.old.peers now.0 who None self.new.peers }
        ensures settings { relay_settings_of self.new ≡ relay_settings_of self.old }
    {
        if barred {
            step.reset(Fate::Queued);
            return;
        }
        self.send_bubble(who, Fate::Queued, step);
        self.peers.tried(now, who, None);
    }
}
