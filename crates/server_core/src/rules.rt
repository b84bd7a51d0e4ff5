//! The server's table.
ghost use Rattle.std.specs.Prelude.{◌≡◌, ◌≤◌, ◌++◌, false, length};
ghost use Rattle.td_base.specs.declared.datagram.TheConstants.{DATAGRAM_MAX};
ghost use Rattle.bubble.specs.Payloads.{payload_view};
ghost use Rattle.ipv6_packet.specs.Reads.{is_big};
ghost use Rattle.ipv6_packet.specs.Packets.{packet_view};
ghost use Rattle.teredo_node.specs.Rows.{first_line};
ghost use Rattle.bubble.specs.Messages.{IsMessageOf};
ghost use Rattle.server_core.specs.Rules.{server_seen, server_packet_lines, server_destination_lines, last_line, rule_of, IsPeer, Warrants};

use crate::conditions::{
    is_for_client, is_for_server, is_forged, is_looped, is_not_ours, is_other_kind, is_own,
    is_solicitation, is_unusable,
};
use crate::server::ServerSettings;
use bubble::{Payload, is_ill_formed, message_of};
use icmp6::Msg;
use indications::is_keyed;
use ipv6_packet::is_big;
use td_base::{Ep, is_global6, usable};
use teredo_addr::is_teredo;
use teredo_node::Fate;

/// What the server's table says of a payload.
#[derive(Clone, Copy, Debug)]
pub enum Rule {
    /// Nothing goes out.
    Dropped(Fate),
    /// A Router Advertisement goes back.
    Advert,
    /// The packet goes on with an origin.
    ForwardOrigin,
    /// The packet goes on as it is.
    Forward,
    /// The packet goes to the IPv6 Internet.
    Six,
}

/// The first line of the table that holds for a payload that came from `from`.
#[inline(always)]
#[tactic(auto, unfolding(crate::specs::Rules::rule_of))]
pub fn first_rule(settings: &ServerSettings, from: Ep, payload: &Payload<'_>) -> Rule
    requires { length payload.now.packet.body.now ≤ DATAGRAM_MAX }
    ensures row { result ≡ rule_of settings.now from (payload_view payload.now) }
    ensures warrant { Warrants settings.now from (payload_view payload.now) result }
{
    let packet = &payload.packet;
    // keyed: RFC 4380, section 5.1.1
    if is_keyed(&payload.lead) {
        return Rule::Dropped(Fate::Keyed);
    }
    // big: our choice
    if is_big(packet) {
        return Rule::Dropped(Fate::Big);
    }
    // kind: RFC 4380, section 5.3.1
    if is_other_kind(packet) {
        return Rule::Dropped(Fate::Kind);
    }
    let message = message_of(packet);
    // icmp: our choice
    if is_ill_formed(packet, message) {
        return Rule::Dropped(Fate::Icmp);
    }
    // source: RFC 4380, section 5.3.1
    if !usable(settings.policy, from) {
        return Rule::Dropped(Fate::Source);
    }
    // loop: our choice
    if is_own(settings, from.ip) {
        return Rule::Dropped(Fate::Loop);
    }
    rule_of_packet(settings, from, payload, message)
}

/// The lines on who sent a packet to whom.
#[inline(always)]
fn rule_of_packet(
    settings: &ServerSettings,
    from: Ep,
    payload: &Payload<'_>,
    message: Option<Msg<'_>>,
) -> Rule
    requires message { IsMessageOf (packet_view payload.now.packet) message }
    requires small { is_big (packet_view payload.now.packet) ≡ false }
    requires peer { IsPeer settings.now from }
    ensures row { let a = server_seen settings.now from (payload_view payload.now) in
        result ≡ first_line (server_packet_lines a ++ server_destination_lines a) last_line }
    ensures warrant { Warrants settings.now from (payload_view payload.now) result }
{
    let packet = &payload.packet;
    // own_echo: our choice
    if is_for_server(settings, packet) {
        return Rule::Dropped(Fate::OwnEcho);
    }
    // advert: RFC 4380, section 5.3.2
    if is_solicitation(packet, message) {
        return Rule::Advert;
    }
    // mismatch: RFC 4380, section 5.3.1
    if is_forged(from, packet) {
        return Rule::Dropped(Fate::Mismatch);
    }
    // not_ours: RFC 4380, section 5.3.1
    if is_not_ours(settings, packet) {
        return Rule::Dropped(Fate::NotOurs);
    }
    rule_of_destination(settings, from, payload)
}

/// The lines on where a packet goes.
#[inline(always)]
fn rule_of_destination(settings: &ServerSettings, from: Ep, payload: &Payload<'_>) -> Rule
    requires small { is_big (packet_view payload.now.packet) ≡ false }
    ensures row { result ≡ first_line (server_destination_lines (server_seen settings.now from (payload_view payload.now))) last_line }
    ensures warrant { Warrants settings.now from (payload_view payload.now) result }
{
    let packet = &payload.packet;
    // embedded: RFC 4380, section 5.3.1
    if is_unusable(settings, packet) {
        return Rule::Dropped(Fate::Embedded);
    }
    // loop: our choice
    if is_looped(settings, packet) {
        return Rule::Dropped(Fate::Loop);
    }
    // forward_origin: RFC 4380, section 5.3.1
    if is_for_client(settings, packet) {
        return Rule::ForwardOrigin;
    }
    // forward: RFC 4380, section 5.3.1
    if is_teredo(packet.dst) {
        return Rule::Forward;
    }
    // six: RFC 4380, section 5.3.1
    if is_global6(packet.dst) {
        return Rule::Six;
    }
    // dest: our choice
    Rule::Dropped(Fate::Dest)
}
