//! The table of packets of the host.
ghost use Rattle.std.specs.Prelude.{◌≡◌, ◌≤◌, true, false, Some, is_some, option_map, unwrap_or, IfSome};
ghost use Rattle.ipv6_packet.specs.Packets.{packet_view};
ghost use Rattle.ipv6_packet.specs.Reads.{is_big};
ghost use Rattle.peer_list.specs.Judged.{is_fresh, is_spent, is_full};
ghost use Rattle.peer_list.specs.Peers.{no_peer};
ghost use Rattle.qualify.specs.Solicitations.{is_qualified};
ghost use Rattle.client_core.specs.Client.{standing_in};
ghost use Rattle.client_rules.specs.Transmission.{destination_lines, transmission_row};
ghost use Rattle.client_core.specs.Lines.{fate_for, given_to, WarrantsPacket, IsCarried};
ghost use Rattle.teredo_node.specs.declared.fate.Fate.{Fate};
ghost use Rattle.teredo_node.specs.Rows.{first_line};

use crate::client::Client;
use bubble::is_bubble;
use ipv6_packet::{Packet, is_big};
use peer_list::Peer;
use td_base::{Ep, Ip6, Millis, is_global6};
use teredo_addr::{has_cone, is_reachable, is_teredo};
use teredo_node::Fate;

/// What the table says of a packet of the host.
#[derive(Clone, Copy, Debug)]
pub enum TransmissionLine {
    /// Nothing is done.
    Drop(Fate),
    /// The packet goes to where its destination is trusted.
    Sent(Ep),
    /// The packet goes to the embedded endpoint.
    SentCone,
    /// The packet waits.
    Queued,
}

/// The first line that holds for a packet, where the client is qualified and has this address.
#[tactic(auto, unfolding(qualify::specs::Solicitations::own_address))]
pub fn line_for(client: &Client, now: Millis, own: Ip6, packet: &Packet<'_>) -> TransmissionLine
    requires clock { client.now.peers.moment ≤ now.0 }
    requires own { client.now.qualifier.now.address ≡ Some own }
    requires qualified { is_qualified client.now.qualifier.now.phase ≡ true }
    ensures row { fate_for result ≡ transmission_row (given_to client.now now.0 (packet_view packet.now)) }
    ensures warrant { WarrantsPacket (standing_in client.now now.0 packet.now.dst) result }
    ensures small { IsCarried (packet_view packet.now) result }
{
    // big: our choice
    if is_big(packet) {
        return TransmissionLine::Drop(Fate::Big);
    }
    // source: our choice
    if packet.src != own {
        return TransmissionLine::Drop(Fate::Source);
    }
    // dest: our choice
    if !is_global6(packet.dst) {
        return TransmissionLine::Drop(Fate::Dest);
    }
    // bubble: our choice
    if is_bubble(packet) {
        return TransmissionLine::Drop(Fate::Bubble);
    }
    // self: our choice
    if packet.dst == own {
        return TransmissionLine::Drop(Fate::Itself);
    }
    line_for_destination(client, now, packet)
}

/// The lines on where a packet goes.
fn line_for_destination(client: &Client, now: Millis, packet: &Packet<'_>) -> TransmissionLine
    requires clock { client.now.peers.moment ≤ now.0 }
    requires small { is_big (packet_view packet.now) ≡ false }
    ensures row { fate_for result ≡ first_line (destination_lines (given_to client.now now.0 (packet_view packet.now))) Fate.Queued }
    ensures warrant { WarrantsPacket (standing_in client.now now.0 packet.now.dst) result }
    ensures small { IsCarried (packet_view packet.now) result }
{
    let who = packet.dst;
    // embedded: our choice
    if is_teredo(who) && !is_reachable(client.qualifier.settings().policy, who) {
        return TransmissionLine::Drop(Fate::Embedded);
    }
    let peer = client.peers.find(now, who);
    // sent: RFC 4380, section 5.2.4, case 1
    if let Some(to) = endpoint_of_fresh(peer, now) {
        return TransmissionLine::Sent(to);
    }
    // sent_cone: RFC 4380, section 5.2.4, case 4
    if is_teredo(who) && has_cone(who) {
        return TransmissionLine::SentCone;
    }
    // peers_full: our choice
    if !client.peers.has_room(now, who) {
        return TransmissionLine::Drop(Fate::PeersFull);
    }
    // barred: RFC 4380, section 5.2.6
    if is_spent(peer, now) {
        return TransmissionLine::Drop(Fate::Barred);
    }
    // queue_full: our choice
    if is_full(peer) {
        return TransmissionLine::Drop(Fate::QueueFull);
    }
    // queued: RFC 4380, section 5.2.4, cases 2, 3 and 5
    TransmissionLine::Queued
}

/// Where a peer is trusted, if it is fresh.
#[tactic(auto, unfolding(peer_list::specs::Judged::is_fresh))]
fn endpoint_of_fresh(peer: Option<&Peer>, now: Millis) -> Option<Ep>
    ensures fresh { is_some result ≡ is_fresh now.0 (unwrap_or (option_map (λ p. p.now) peer.entry) no_peer) }
    ensures trusted { IfSome result (λ to. (unwrap_or (option_map (λ p. p.now) peer.entry) no_peer).trusted ≡ Some to) }
    ensures listed { IfSome result (λ to. is_some peer.entry ≡ true) }
{
    let Some(peer) = peer else {
        return None;
    };
    if !peer.is_fresh(now) {
        return None;
    }
    peer.trusted()
}

/// Whether no further try at a peer helps.
#[tactic(auto, unfolding(peer_list::specs::Judged::is_spent))]
fn is_spent(peer: Option<&Peer>, now: Millis) -> bool
    ensures { result ≡ is_spent now.0 (unwrap_or (option_map (λ p. p.now) peer.entry) no_peer) }
{
    match peer {
        None => false,
        Some(peer) => peer.is_spent(now),
    }
}

/// Whether no further packet may wait for a peer.
#[tactic(auto, unfolding(peer_list::specs::Judged::is_full))]
fn is_full(peer: Option<&Peer>) -> bool
    ensures { result ≡ is_full (unwrap_or (option_map (λ p. p.now) peer.entry) no_peer) }
{
    match peer {
        None => false,
        Some(peer) => peer.is_full(),
    }
}
