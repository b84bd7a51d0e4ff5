//! What the lines of a client's tables ask.
ghost use Rattle.std.specs.Prelude.{◌≡◌, ◌≤◌, length, is_some, IfSome, Some};
ghost use Rattle.std.specs.Option.{option_or};
ghost use Rattle.byteorder.specs.Endian.{big_bytes};
ghost use Rattle.td_base.specs.declared.datagram.TheConstants.{DATAGRAM_MAX};
ghost use Rattle.ipv6_packet.specs.Packets.{packet_view};
ghost use Rattle.bubble.specs.Messages.{IsMessageOf, message_in, is_advert, is_echo_reply};
ghost use Rattle.client_rules.specs.Reception.{is_from_server, is_good_origin, is_reply_to};

use icmp6::Msg;
use indications::NONCE;
use ipv6_packet::Packet;
use qualify::Settings;
use td_base::{Ep, Ip6, put64, usable};
use teredo_addr::{embedded, is_teredo};

/// Whether a datagram came from one of the server's two endpoints.
#[tactic(auto, unfolding(client_rules::specs::Reception::is_from_server))]
pub fn is_from_server(settings: &Settings, from: Ep) -> bool
    ensures { result ≡ is_from_server settings.now from }
{
    from == Ep::of_server(settings.primary) || from == Ep::of_server(settings.secondary)
}

/// Whether a message is a Router Advertisement.
pub fn is_advert(packet: &Packet<'_>, message: Option<Msg<'_>>) -> bool
    requires { IsMessageOf (packet_view packet.now) message }
    ensures { result ≡ is_advert (message_in (packet_view packet.now)) }
{
    match message {
        Some(Msg::RouterAdvert { .. }) => true,
        _ => false,
    }
}

/// Whether a message is an echo reply.
pub fn is_echo_reply(packet: &Packet<'_>, message: Option<Msg<'_>>) -> bool
    requires { IsMessageOf (packet_view packet.now) message }
    ensures { result ≡ is_echo_reply (message_in (packet_view packet.now)) }
{
    match message {
        Some(Msg::EchoReply { .. }) => true,
        _ => false,
    }
}

/// The bytes of a nonce, the high ones first.
pub fn nonce_bytes(nonce: u64) -> [u8; NONCE]
    ensures { result ≡ big_bytes 8 nonce }
{
    let mut bytes = [0; NONCE];
    put64(&mut bytes, 0, nonce);
    bytes
}

/// Whether a message is an echo reply whose data is this nonce.
pub fn is_reply_to(nonce: Option<u64>, packet: &Packet<'_>, message: Option<Msg<'_>>) -> bool
    requires { IsMessageOf (packet_view packet.now) message }
    ensures { result ≡ is_reply_to nonce (message_in (packet_view packet.now)) }
{
    let Some(nonce) = nonce else { return false };
    match message {
        Some(Msg::EchoReply { body, .. }) => body == nonce_bytes(nonce).as_slice(),
        _ => false,
    }
}

/// The origin of an indirect bubble, where it can be used and is what a Teredo source embeds.
pub fn good_origin(settings: &Settings, source: Ip6, origin: Option<Ep>) -> Option<Ep>
    ensures good { is_some result ≡ is_good_origin settings.now.policy source origin }
    ensures found { IfSome result (λ ep. origin ≡ Some ep) }
{
    let origin = origin?;
    if !usable(settings.policy, origin) {
        return None;
    }
    if is_teredo(source) && origin != embedded(source) {
        return None;
    }
    Some(origin)
}
