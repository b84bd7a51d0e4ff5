//! What the lines of the server's table ask of a datagram.
ghost use Rattle.std.specs.Prelude.{◌≡◌, ◌≤◌, length, IsTrue};
ghost use Rattle.td_base.specs.declared.datagram.TheConstants.{DATAGRAM_MAX};
ghost use Rattle.ipv6_packet.specs.Packets.{packet_view};
ghost use Rattle.icmp6.specs.declared.numbers.TheConstants.{SOLICIT_LEN};
ghost use Rattle.bubble.specs.Messages.{IsMessageOf};
ghost use Rattle.server_core.specs.Conditions.{server_link_local, is_other_kind, is_own, is_for_server, is_solicitation};
ghost use Rattle.server_core.specs.Conditions.{is_forged, is_for_client, is_not_ours, is_unusable, is_looped};

use crate::server::ServerSettings;
use bubble::{Kind, kind};
use icmp6::Msg;
use ipv6_packet::Packet;
use td_base::{Ep, Ip4, Ip6, is_link_local, usable};
use teredo_addr::{ALL_ROUTERS, embedded, is_teredo, link_local, server_of};

/// Whether a packet is neither a bubble nor ICMPv6.
#[inline(always)]
#[tactic(auto, unfolding(crate::specs::Conditions::is_other_kind))]
pub fn is_other_kind(packet: &Packet<'_>) -> bool
    ensures { result ≡ is_other_kind (packet_view packet.now) }
{
    match kind(packet) {
        Kind::Data => true,
        Kind::Bubble | Kind::Icmp => false,
    }
}

/// Whether an address is one of the server's two.
#[inline(always)]
#[tactic(auto, unfolding(crate::specs::Conditions::is_own))]
pub fn is_own(settings: &ServerSettings, ip: Ip4) -> bool
    ensures { result ≡ is_own settings.now ip }
{
    ip == settings.primary || ip == settings.secondary
}

/// The server's link-local address.
#[inline(always)]
pub fn own_address(settings: &ServerSettings) -> Ip6
    ensures { result ≡ server_link_local settings.now }
{
    link_local(true, Ep::of_server(settings.primary))
}

/// Whether a packet is for the server itself.
#[inline(always)]
#[tactic(auto, unfolding(crate::specs::Conditions::is_for_server))]
pub fn is_for_server(settings: &ServerSettings, packet: &Packet<'_>) -> bool
    ensures { result ≡ is_for_server settings.now (packet_view packet.now) }
{
    packet.dst == own_address(settings)
}

/// Whether a packet is a Router Solicitation from a link-local address to all routers.
#[inline(always)]
#[tactic(auto, unfolding(crate::specs::Conditions::is_solicitation))]
pub fn is_solicitation(packet: &Packet<'_>, message: Option<Msg<'_>>) -> bool
    requires { IsMessageOf (packet_view packet.now) message }
    ensures exact { result ≡ is_solicitation (packet_view packet.now) }
    ensures len { IsTrue result → SOLICIT_LEN ≤ length packet.now.body.now }
{
    if !is_link_local(packet.src) || packet.dst != ALL_ROUTERS {
        return false;
    }
    match message {
        Some(Msg::RouterSolicit { .. }) => true,
        _ => false,
    }
}

/// Whether a Teredo source doesn't embed the endpoint that the datagram came from.
#[inline(always)]
#[tactic(auto, unfolding(crate::specs::Conditions::is_forged))]
pub fn is_forged(from: Ep, packet: &Packet<'_>) -> bool
    ensures { result ≡ is_forged from (packet_view packet.now) }
{
    is_teredo(packet.src) && embedded(packet.src) != from
}

/// Whether a packet is for a client of this server.
#[inline(always)]
#[tactic(auto, unfolding(crate::specs::Conditions::is_for_client))]
pub fn is_for_client(settings: &ServerSettings, packet: &Packet<'_>) -> bool
    ensures { result ≡ is_for_client settings.now (packet_view packet.now) }
{
    is_teredo(packet.dst) && server_of(packet.dst) == settings.primary
}

/// Whether a packet is from outside Teredo and for no client of this server.
#[inline(always)]
#[tactic(auto, unfolding(crate::specs::Conditions::is_not_ours))]
pub fn is_not_ours(settings: &ServerSettings, packet: &Packet<'_>) -> bool
    ensures { result ≡ is_not_ours settings.now (packet_view packet.now) }
{
    !is_teredo(packet.src) && !is_for_client(settings, packet)
}

/// Whether a Teredo destination embeds an endpoint that can't be used.
#[inline(always)]
#[tactic(auto, unfolding(crate::specs::Conditions::is_unusable))]
pub fn is_unusable(settings: &ServerSettings, packet: &Packet<'_>) -> bool
    ensures { result ≡ is_unusable settings.now (packet_view packet.now) }
{
    is_teredo(packet.dst) && !usable(settings.policy, embedded(packet.dst))
}

/// Whether a Teredo destination embeds an address of the server.
#[inline(always)]
#[tactic(auto, unfolding(crate::specs::Conditions::is_looped))]
pub fn is_looped(settings: &ServerSettings, packet: &Packet<'_>) -> bool
    ensures { result ≡ is_looped settings.now (packet_view packet.now) }
{
    is_teredo(packet.dst) && is_own(settings, embedded(packet.dst).ip)
}
