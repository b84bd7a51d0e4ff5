//! The table of datagrams.
ghost use Rattle.std.specs.Prelude.{◌≡◌, ◌≤◌, ◌&&◌, ◌++◌, not, true, false, length};
ghost use Rattle.td_base.specs.declared.datagram.TheConstants.{DATAGRAM_MAX};
ghost use Rattle.td_base.specs.Ep.{same_ep};
ghost use Rattle.ipv6_packet.specs.Reads.{is_big};
ghost use Rattle.teredo_addr.specs.Teredo.{is_teredo, embedded};
ghost use Rattle.bubble.specs.Payloads.{payload_view};
ghost use Rattle.teredo_node.specs.declared.fate.Fate.{Fate};
ghost use Rattle.teredo_node.specs.Rows.{first_line};
ghost use Rattle.qualify.specs.Solicitations.{is_qualified};
ghost use Rattle.client_core.specs.Client.{settings_of, standing_in};
ghost use Rattle.client_rules.specs.Reception.{is_from_server, server_lines, packet_lines, indirect_lines};
ghost use Rattle.client_rules.specs.Reception.{direct_lines, teredo_lines, is_testable, is_under_test, suspicious_lines, reception_row};
ghost use Rattle.client_core.specs.Lines.{fate_of, keeps, seen_by, WarrantsDatagram};

use crate::client::Client;
use crate::conditions::{good_origin, is_advert, is_echo_reply, is_from_server, is_reply_to};
use bubble::{Payload, is_bubble, is_ill_formed, message_of};
use indications::{is_confirmed, is_keyed, origin_in};
use ipv6_packet::is_big;
use td_base::{Ep, Ip6, Millis, is_global6};
use teredo_addr::{embedded, is_teredo};
use teredo_node::Fate;

/// What the table says of a datagram.
#[derive(Clone, Copy, Debug)]
pub enum ReceptionLine {
    /// Nothing is done.
    Drop(Fate),
    /// An advertisement of the server: its own table decides.
    Advert,
    /// A bubble came through the server, and one goes back to this origin.
    Indirect(Ep),
    Rule1,
    Rule1Bubble,
    Rule2,
    Rule3,
    Rule3Bubble,
    /// Rule 6: the packet is held, and a test goes to the source.
    HeldTest,
    /// Rule 6: as many packets of the source are held as may be, and a test goes there.
    SuspiciousTest,
    /// Rule 6: the packet is held while its source is being tested.
    Held,
}

/// The first line that holds for a payload that came from `from`.
pub fn line_of(client: &Client, now: Millis, from: Ep, payload: &Payload<'_>) -> ReceptionLine
    requires clock { client.now.peers.moment ≤ now.0 }
    requires short { length payload.now.packet.body.now ≤ DATAGRAM_MAX }
    ensures row { (advert : Fate) → fate_of result advert ≡ reception_row (seen_by client.now now.0 from (payload_view payload.now)) advert }
    ensures warrant { WarrantsDatagram (standing_in client.now now.0 payload.now.packet.src) (payload_view payload.now) result }
    ensures small { keeps result ≡ true → is_big (payload_view payload.now).packet ≡ false }
{
    // keyed: our choice
    if is_keyed(&payload.lead) {
        return ReceptionLine::Drop(Fate::Keyed);
    }
    // confirmation: our choice
    if is_confirmed(&payload.lead) {
        return ReceptionLine::Drop(Fate::Confirmation);
    }
    // big: our choice
    if is_big(&payload.packet) {
        return ReceptionLine::Drop(Fate::Big);
    }
    if is_from_server(client.qualifier.settings(), from) {
        return line_of_server(client, now, from, payload);
    }
    line_of_packet(client, now, from, payload)
}

/// The lines on what the server sends of its own.
fn line_of_server(client: &Client, now: Millis, from: Ep, payload: &Payload<'_>) -> ReceptionLine
    requires clock { client.now.peers.moment ≤ now.0 }
    requires short { length payload.now.packet.body.now ≤ DATAGRAM_MAX }
    requires server { is_from_server (settings_of client.now) from ≡ true }
    ensures row { let a = seen_by client.now now.0 from (payload_view payload.now) in
        (advert : Fate) → fate_of result advert ≡ first_line (server_lines a advert ++ (packet_lines a ++
        (indirect_lines a ++ direct_lines a))) Fate.Suspicious }
    ensures warrant { WarrantsDatagram (standing_in client.now now.0 payload.now.packet.src) (payload_view payload.now) result }
{
    let packet = &payload.packet;
    let message = message_of(packet);
    // icmp: our choice
    if is_ill_formed(packet, message) {
        return ReceptionLine::Drop(Fate::Icmp);
    }
    // an advertisement: RFC 4380, section 5.2.1
    if is_advert(packet, message) {
        return ReceptionLine::Advert;
    }
    // server_other: RFC 4380, section 5.2.3
    if !is_bubble(packet) || payload.lead.origin.is_none() {
        return ReceptionLine::Drop(Fate::ServerOther);
    }
    line_of_packet(client, now, from, payload)
}

/// The lines on who sent a packet to whom.
#[tactic(auto, unfolding(qualify::specs::Solicitations::own_address))]
fn line_of_packet(client: &Client, now: Millis, from: Ep, payload: &Payload<'_>) -> ReceptionLine
    requires clock { client.now.peers.moment ≤ now.0 }
    requires short { length payload.now.packet.body.now ≤ DATAGRAM_MAX }
    ensures row { let a = seen_by client.now now.0 from (payload_view payload.now) in
        (advert : Fate) → fate_of result advert ≡ first_line (packet_lines a ++ (indirect_lines a ++ direct_lines a)) Fate.Suspicious }
    ensures warrant { WarrantsDatagram (standing_in client.now now.0 payload.now.packet.src) (payload_view payload.now) result }
{
    let packet = &payload.packet;
    // off: RFC 4380, section 5.2.3
    let Some(own) = client.qualifier.address() else {
        return ReceptionLine::Drop(Fate::Off);
    };
    // not_mine: RFC 4380, section 5.2.3
    if packet.dst != own {
        return ReceptionLine::Drop(Fate::NotMine);
    }
    // self: our choice
    if packet.src == own {
        return ReceptionLine::Drop(Fate::Itself);
    }
    if is_from_server(client.qualifier.settings(), from) {
        return line_of_indirect(client, now, from, payload);
    }
    line_of_direct(client, now, from, payload)
}

/// The lines on bubbles that come through the server.
fn line_of_indirect(client: &Client, now: Millis, from: Ep, payload: &Payload<'_>) -> ReceptionLine
    requires clock { client.now.peers.moment ≤ now.0 }
    requires server { is_from_server (settings_of client.now) from ≡ true }
    ensures row { let a = seen_by client.now now.0 from (payload_view payload.now) in
        (advert : Fate) → fate_of result advert ≡ first_line (indirect_lines a ++ direct_lines a) Fate.Suspicious }
    ensures warrant { WarrantsDatagram (standing_in client.now now.0 payload.now.packet.src) (payload_view payload.now) result }
{
    let source = payload.packet.src;
    // origin: RFC 4380, section 5.2.3
    let Some(origin) = good_origin(
        client.qualifier.settings(),
        source,
        origin_in(&payload.lead),
    ) else {
        return ReceptionLine::Drop(Fate::Origin);
    };
    // peers_full: our choice
    if !client.peers.has_room(now, source) {
        return ReceptionLine::Drop(Fate::PeersFull);
    }
    // barred: RFC 4380, section 5.2.6
    if client.peers.is_barred(now, source) {
        return ReceptionLine::Drop(Fate::Barred);
    }
    // indirect: RFC 4380, section 5.2.3
    ReceptionLine::Indirect(origin)
}

/// The lines on packets that come from a peer itself.
#[tactic(auto, using(crate::proofs::Listed::trusted_is_listed))]
fn line_of_direct(client: &Client, now: Millis, from: Ep, payload: &Payload<'_>) -> ReceptionLine
    requires clock { client.now.peers.moment ≤ now.0 }
    requires short { length payload.now.packet.body.now ≤ DATAGRAM_MAX }
    requires peer { is_from_server (settings_of client.now) from ≡ false }
    ensures row { let a = seen_by client.now now.0 from (payload_view payload.now) in
        (advert : Fate) → fate_of result advert ≡ first_line (indirect_lines a ++ direct_lines a) Fate.Suspicious }
    ensures warrant { WarrantsDatagram (standing_in client.now now.0 payload.now.packet.src) (payload_view payload.now) result }
{
    let packet = &payload.packet;
    if client.peers.is_trusted_at(now, packet.src, from) {
        // rule1_bubble: RFC 4380, section 5.2.3, rule 1
        if is_bubble(packet) {
            return ReceptionLine::Rule1Bubble;
        }
        // rule1: RFC 4380, section 5.2.3, rule 1
        return ReceptionLine::Rule1;
    }
    // rule2: RFC 4380, section 5.2.3, rule 2
    if answers_test(client, now, from, payload) {
        return ReceptionLine::Rule2;
    }
    if is_embedded_at(packet.src, from) {
        return line_of_embedded(client, now, from, payload);
    }
    line_of_other(client, now, from, payload)
}

/// The lines on packets that a Teredo client sends from the endpoint that its address embeds.
fn line_of_embedded(client: &Client, now: Millis, from: Ep, payload: &Payload<'_>) -> ReceptionLine
    requires clock { client.now.peers.moment ≤ now.0 }
    requires here { (is_teredo payload.now.packet.src && same_ep (embedded payload.now.packet.src) from) ≡ true }
    ensures row { let a = seen_by client.now now.0 from (payload_view payload.now) in
        (advert : Fate) → fate_of result advert ≡ first_line (teredo_lines a ++ suspicious_lines a) Fate.Suspicious }
    ensures warrant { WarrantsDatagram (standing_in client.now now.0 payload.now.packet.src) (payload_view payload.now) result }
{
    let packet = &payload.packet;
    // peers_full: our choice
    if !client.peers.has_room(now, packet.src) {
        return ReceptionLine::Drop(Fate::PeersFull);
    }
    // rule3_bubble: RFC 4380, section 5.2.3, rule 3
    if is_bubble(packet) {
        return ReceptionLine::Rule3Bubble;
    }
    // rule3: RFC 4380, section 5.2.3, rule 3
    ReceptionLine::Rule3
}

/// The lines on packets from elsewhere.
fn line_of_other(client: &Client, now: Millis, from: Ep, payload: &Payload<'_>) -> ReceptionLine
    requires clock { client.now.peers.moment ≤ now.0 }
    requires short { length payload.now.packet.body.now ≤ DATAGRAM_MAX }
    requires elsewhere { (is_teredo payload.now.packet.src && same_ep (embedded payload.now.packet.src) from) ≡ false }
    ensures row { let a = seen_by client.now now.0 from (payload_view payload.now) in
        (advert : Fate) → fate_of result advert ≡ first_line (teredo_lines a ++ suspicious_lines a) Fate.Suspicious }
    ensures warrant { WarrantsDatagram (standing_in client.now now.0 payload.now.packet.src) (payload_view payload.now) result }
{
    // mismatch: RFC 4380, section 5.2.3, rule 3
    if is_teredo(payload.packet.src) {
        return ReceptionLine::Drop(Fate::Mismatch);
    }
    if may_be_tested(client, now, from, payload) {
        return line_of_tested(client, now, from, payload);
    }
    // suspicious: RFC 4380, section 5.2.3, rule 6
    if client.peers.holds_most(now, payload.packet.src) {
        return ReceptionLine::Drop(Fate::Suspicious);
    }
    // held: RFC 4380, section 5.2.3, rule 6
    if is_under_test(client, now, from, payload) {
        return ReceptionLine::Held;
    }
    // suspicious: RFC 4380, section 5.2.3, rule 6
    ReceptionLine::Drop(Fate::Suspicious)
}

/// The lines on packets whose source is tested now.
#[tactic(auto, using(crate::proofs::Listed::holding_is_listed, crate::proofs::Listed::testable_has_room))]
fn line_of_tested(client: &Client, now: Millis, from: Ep, payload: &Payload<'_>) -> ReceptionLine
    requires clock { client.now.peers.moment ≤ now.0 }
    requires testable { is_testable (seen_by client.now now.0 from (payload_view payload.now)) ≡ true }
    ensures row { (advert : Fate) → fate_of result advert
        ≡ first_line (suspicious_lines (seen_by client.now now.0 from (payload_view payload.now))) Fate.Suspicious }
    ensures warrant { WarrantsDatagram (standing_in client.now now.0 payload.now.packet.src) (payload_view payload.now) result }
{
    // suspicious_test: RFC 4380, section 5.2.3, rule 6
    if client.peers.holds_most(now, payload.packet.src) {
        return ReceptionLine::SuspiciousTest;
    }
    // held_test: RFC 4380, section 5.2.3, rule 6
    ReceptionLine::HeldTest
}

/// Whether an address is a Teredo client's that embeds this very endpoint.
fn is_embedded_at(ip: Ip6, from: Ep) -> bool
    ensures { result ≡ (is_teredo ip && same_ep (embedded ip) from) }
{
    is_teredo(ip) && embedded(ip) == from
}

/// Whether a packet answers the test of its source, which is no Teredo client and isn't fresh.
fn answers_test(client: &Client, now: Millis, from: Ep, payload: &Payload<'_>) -> bool
    requires clock { client.now.peers.moment ≤ now.0 }
    requires short { length payload.now.packet.body.now ≤ DATAGRAM_MAX }
    ensures { let a = seen_by client.now now.0 from (payload_view payload.now) in
        result ≡ (not a.teredo && (a.peer.listed && (not a.peer.fresh && a.peer.reply))) }
{
    let packet = &payload.packet;
    if is_teredo(packet.src) {
        return false;
    }
    let Some(peer) = client.peers.find(now, packet.src) else {
        return false;
    };
    !peer.is_fresh(now) && is_reply_to(peer.nonce(), packet, message_of(packet))
}

/// Whether a packet's source may be tested, and the packet is one that a test answers.
fn may_be_tested(client: &Client, now: Millis, from: Ep, payload: &Payload<'_>) -> bool
    requires clock { client.now.peers.moment ≤ now.0 }
    requires short { length payload.now.packet.body.now ≤ DATAGRAM_MAX }
    ensures { result ≡ is_testable (seen_by client.now now.0 from (payload_view payload.now)) }
{
    let packet = &payload.packet;
    is_global6(packet.src)
        && !client.peers.is_fresh(now, packet.src)
        && !client.peers.is_barred(now, packet.src)
        && client.peers.has_room(now, packet.src)
        && !is_bubble(packet)
        && !is_echo_reply(packet, message_of(packet))
}

/// Whether a packet's source is being tested, and the packet is one that a test answers.
fn is_under_test(client: &Client, now: Millis, from: Ep, payload: &Payload<'_>) -> bool
    requires clock { client.now.peers.moment ≤ now.0 }
    requires short { length payload.now.packet.body.now ≤ DATAGRAM_MAX }
    ensures { result ≡ is_under_test (seen_by client.now now.0 from (payload_view payload.now)) }
{
    let packet = &payload.packet;
    is_global6(packet.src)
        && client.peers.is_listed(now, packet.src)
        && !client.peers.is_fresh(now, packet.src)
        && client.peers.is_barred(now, packet.src)
        && client.peers.nonce(now, packet.src).is_some()
        && !is_bubble(packet)
        && !is_echo_reply(packet, message_of(packet))
}
