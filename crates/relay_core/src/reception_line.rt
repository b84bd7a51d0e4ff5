//! The table of datagrams.
ghost use Rattle.std.specs.Prelude.{◌≡◌, ◌≤◌, ◌++◌, true, false, is_some};
ghost use Rattle.std.specs.List.{list_any};
ghost use Rattle.td_base.specs.Ip6.{same_ip6};
ghost use Rattle.teredo_addr.specs.Teredo.{is_teredo, embedded};
ghost use Rattle.bubble.specs.Payloads.{payload_view};
ghost use Rattle.teredo_node.specs.declared.fate.Fate.{Fate};
ghost use Rattle.teredo_node.specs.Rows.{first_line};
ghost use Rattle.peer_list.specs.Table.{peer_in};
ghost use Rattle.relay_rules.specs.Reception.{relay_reception_row};
ghost use Rattle.relay_core.specs.Relay.{relay_settings_of, relay_standing_in};
ghost use Rattle.relay_core.specs.Lines.{relay_fate_of, seen_by_relay, client_row, RelayWarrantsDatagram};

use crate::relay::Relay;
use bubble::{Payload, is_bubble};
use indications::is_keyed;
use ipv6_packet::is_big;
use td_base::{Ep, Ip6, Millis};
use teredo_addr::{embedded, is_teredo};
use teredo_node::Fate;

/// What the table says of a datagram.
#[derive(Clone, Copy, Debug)]
pub enum ReceptionLine {
    /// Nothing is done.
    Drop(Fate),
    /// A bubble of a listed client.
    FromClientBubble,
    /// A packet of a listed client for a native that the relay serves.
    FromClient,
    /// A packet of a listed client for anybody else.
    Unserved,
}

/// The first line that holds for a payload that came from `from`.
pub fn line_of(relay: &Relay, now: Millis, from: Ep, payload: &Payload<'_>) -> ReceptionLine
    requires clock { relay.now.peers.moment ≤ now.0 }
    ensures row { relay_fate_of result ≡ relay_reception_row (seen_by_relay relay.now now.0 from (payload_view payload.now)) }
    ensures warrant { RelayWarrantsDatagram (relay_standing_in relay.now now.0 payload.now.packet.src) result }
{
    let source = payload.packet.src;
    // keyed: our choice
    if is_keyed(&payload.lead) {
        return ReceptionLine::Drop(Fate::Keyed);
    }
    // big: our choice
    if is_big(&payload.packet) {
        return ReceptionLine::Drop(Fate::Big);
    }
    // source: RFC 4380, section 5.4.2
    if !is_teredo(source) {
        return ReceptionLine::Drop(Fate::Source);
    }
    // mismatch: RFC 4380, section 5.4.2
    if embedded(source) != from {
        return ReceptionLine::Drop(Fate::Mismatch);
    }
    // unlisted: RFC 4380, section 5.4.2
    if !relay.peers.is_listed(now, source) {
        return ReceptionLine::Drop(Fate::Unlisted);
    }
    line_of_client(relay, now, from, payload)
}

/// The lines on packets of a listed client.
fn line_of_client(relay: &Relay, now: Millis, from: Ep, payload: &Payload<'_>) -> ReceptionLine
    requires listed { is_some (peer_in relay.now.peers now.0 payload.now.packet.src) ≡ true }
    ensures row { relay_fate_of result ≡ client_row (seen_by_relay relay.now now.0 from (payload_view payload.now)) }
    ensures warrant { RelayWarrantsDatagram (relay_standing_in relay.now now.0 payload.now.packet.src) result }
{
    // from_client_bubble: RFC 4380, section 5.4.2
    if is_bubble(&payload.packet) {
        return ReceptionLine::FromClientBubble;
    }
    // from_client: RFC 4380, section 5.4.2
    if serves(relay, payload.packet.dst) {
        return ReceptionLine::FromClient;
    }
    // unserved: our choice
    ReceptionLine::Unserved
}

/// Whether a relay serves an address.
fn serves(relay: &Relay, ip: Ip6) -> bool
    ensures { result ≡ list_any (same_ip6 ip) (relay_settings_of relay.now).served }
{
    relay.served.iter().any(|one| ip == *one)
}
