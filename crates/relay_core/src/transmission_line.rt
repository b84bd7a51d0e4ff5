//! The table of packets of the IPv6 side.
ghost use Rattle.std.specs.Prelude.{◌≡◌, ◌≤◌, ◌||◌, not, true, false, is_some};
ghost use Rattle.td_base.specs.Reach.{is_global6};
ghost use Rattle.ipv6_packet.specs.Packets.{packet_view};
ghost use Rattle.ipv6_packet.specs.Reads.{is_big};
ghost use Rattle.teredo_addr.specs.Teredo.{is_teredo};
ghost use Rattle.teredo_node.specs.declared.fate.Fate.{Fate};
ghost use Rattle.teredo_node.specs.Rows.{first_line};
ghost use Rattle.peer_list.specs.Table.{peer_in, known_to};
ghost use Rattle.relay_rules.specs.Transmission.{relay_destination_lines, relay_transmission_row};
ghost use Rattle.relay_core.specs.Relay.{relay_settings_of, relay_standing_in};
ghost use Rattle.relay_core.specs.Lines.{relay_fate_for, given_to_relay, RelayWarrantsPacket, IsCarriedByRelay};

use crate::relay::Relay;
use ipv6_packet::{Packet, is_big};
use td_base::{Ip6, Millis, is_global6};
use teredo_addr::{embedded, has_cone, is_reachable, is_teredo};
use teredo_node::Fate;

/// What the table says of a packet of the IPv6 side.
#[derive(Clone, Copy, Debug)]
pub enum TransmissionLine {
    /// Nothing is done.
    Drop(Fate),
    /// The packet goes to the embedded endpoint, where its destination is trusted.
    Sent,
    /// The packet goes to the embedded endpoint of a client behind a cone NAT.
    SentCone,
    /// The packet waits.
    Queued,
}

/// The first line that holds for a packet.
pub fn line_for(relay: &Relay, now: Millis, packet: &Packet<'_>) -> TransmissionLine
    requires clock { relay.now.peers.moment ≤ now.0 }
    ensures row { relay_fate_for result ≡ relay_transmission_row (given_to_relay relay.now now.0 (packet_view packet.now)) }
    ensures warrant { RelayWarrantsPacket (relay_standing_in relay.now now.0 packet.now.dst) packet.now.dst result }
    ensures small { IsCarriedByRelay (packet_view packet.now) result }
{
    // big: our choice
    if is_big(packet) {
        return TransmissionLine::Drop(Fate::Big);
    }
    // dest: RFC 4380, section 5.4.1
    if !is_teredo(packet.dst) {
        return TransmissionLine::Drop(Fate::Dest);
    }
    // source: our choice
    if !is_foreign(packet.src) {
        return TransmissionLine::Drop(Fate::Source);
    }
    // embedded: our choice
    if !is_reachable(relay.policy, packet.dst) {
        return TransmissionLine::Drop(Fate::Embedded);
    }
    // loop: our choice
    if embedded(packet.dst).ip == relay.at.ip {
        return TransmissionLine::Drop(Fate::Loop);
    }
    line_for_destination(relay, now, packet)
}

/// The lines on where a packet goes.
fn line_for_destination(relay: &Relay, now: Millis, packet: &Packet<'_>) -> TransmissionLine
    requires clock { relay.now.peers.moment ≤ now.0 }
    requires small { is_big (packet_view packet.now) ≡ false }
    ensures row { relay_fate_for result ≡ first_line (relay_destination_lines (given_to_relay relay.now now.0 (packet_view packet.now))) Fate.Queued }
    ensures warrant { RelayWarrantsPacket (relay_standing_in relay.now now.0 packet.now.dst) packet.now.dst result }
    ensures small { IsCarriedByRelay (packet_view packet.now) result }
{
    let who = packet.dst;
    // sent: RFC 4380, section 5.4.1
    if is_trusted(relay, now, who) {
        return TransmissionLine::Sent;
    }
    // peers_full: our choice
    if !relay.peers.has_room(now, who) {
        return TransmissionLine::Drop(Fate::PeersFull);
    }
    // sent_cone: RFC 4380, section 5.4.1
    if has_cone(who) {
        return TransmissionLine::SentCone;
    }
    // barred: RFC 4380, section 5.2.6
    if relay.peers.is_spent(now, who) {
        return TransmissionLine::Drop(Fate::Barred);
    }
    // queue_full: our choice
    if relay.peers.is_full(now, who) {
        return TransmissionLine::Drop(Fate::QueueFull);
    }
    // queued: RFC 4380, section 5.4.1
    TransmissionLine::Queued
}

/// Whether an address is trusted.
#[tactic(auto, using(crate::proofs::Listed::trusted_is_listed))]
fn is_trusted(relay: &Relay, now: Millis, who: Ip6) -> bool
    requires clock { relay.now.peers.moment ≤ now.0 }
    ensures trusted { result ≡ is_some (known_to relay.now.peers now.0 who).trusted }
    ensures listed { result ≡ true → is_some (peer_in relay.now.peers now.0 who) ≡ true }
{
    relay.peers.trusted(now, who).is_some()
}

/// Whether an address is one of the IPv6 Internet, and no Teredo address.
fn is_foreign(ip: Ip6) -> bool
    ensures { result ≡ not (is_teredo ip || not (is_global6 ip)) }
{
    !is_teredo(ip) && is_global6(ip)
}
