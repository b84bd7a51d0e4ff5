//! The table of advertisements.
ghost use Rattle.std.specs.Prelude.{◌≡◌, ◌≤◌, Some, length, filter_map, is_some, IfSome};
ghost use Rattle.icmp6.specs.Blocks.{options_left};
ghost use Rattle.icmp6.specs.Message.{options_in, message_view};
ghost use Rattle.icmp6.specs.Options.{AreOptions};
ghost use Rattle.ipv6_packet.specs.Packets.{packet_view};
ghost use Rattle.indications.specs.Leads.{origin_in};
ghost use Rattle.td_base.specs.declared.datagram.TheConstants.{DATAGRAM_MAX};
ghost use Rattle.bubble.specs.Payloads.{payload_view};
ghost use Rattle.bubble.specs.Messages.{message_in};
ghost use Rattle.qualify.specs.Advertisements.{is_own_prefix, is_usable_origin, prefix_of, prefixes_in, IsOnly, Takes};
ghost use Rattle.qualify.specs.State.{qualification_of};

use crate::limits::PREFIX_BITS;
use crate::settings::Settings;
use crate::solicitation::expected;
use crate::state::State;
use bubble::Payload;
use icmp6::{Msg, Opt, Options, options};
use indications::{nonce_of, origin_in};
use ipv6_packet::{NEXT_ICMP, Packet};
use td_base::{Ep, Ip6, usable};
use teredo_addr::{is_teredo, server_of};
use teredo_node::Fate;

/// The origin of an advertisement that is taken, or the fate of one that isn't.
pub fn taken_origin(
    settings: &Settings,
    state: &State,
    from: Ep,
    payload: &Payload<'_>,
) -> Result<Ep, Fate>
    requires { length payload.now.packet.body.now ≤ DATAGRAM_MAX }
    ensures { Takes settings.now (qualification_of state.now) from (payload_view payload.now) result }
{
    // nonce: RFC 4380, section 5.2.1
    if !state.has_open(nonce_of(&payload.lead)) {
        return Err(Fate::Nonce);
    }
    // advert_source: RFC 4380, section 5.2.1
    if from != expected(settings, state) {
        return Err(Fate::AdvertSource);
    }
    // origin: RFC 4380, section 5.2.1
    let Some(origin) = usable_origin(settings, payload) else {
        return Err(Fate::Origin);
    };
    // prefix: RFC 4380, section 5.2.1
    let Some(prefix) = only_prefix(&payload.packet) else {
        return Err(Fate::Prefix);
    };
    // prefix: RFC 4380, section 5.2.1
    if !is_own_prefix(settings, prefix) {
        return Err(Fate::Prefix);
    }
    Ok(origin)
}

/// The origin of a payload, where it can be used.
fn usable_origin(settings: &Settings, payload: &Payload<'_>) -> Option<Ep>
    ensures usable { is_some result ≡ is_usable_origin settings.now.policy (origin_in payload.now.lead) }
    ensures found { IfSome result (λ ep. origin_in payload.now.lead ≡ Some ep) }
{
    let origin = origin_in(&payload.lead)?;
    if usable(settings.policy, origin) {
        Some(origin)
    } else {
        None
    }
}

/// The Prefix Information of an advertisement, where there is exactly one: its length and its prefix.
#[tactic(auto, unfolding(bubble::specs::Messages::message_in, crate::specs::Advertisements::prefixes_in, icmp6::specs::Blocks::options_at))]
fn only_prefix(packet: &Packet<'_>) -> Option<(u8, Ip6)>
    requires { length packet.now.body.now ≤ DATAGRAM_MAX }
    ensures { IsOnly result (prefixes_in (message_in (packet_view packet.now))) }
{
    if packet.next != NEXT_ICMP {
        return None;
    }
    match icmp6::read(packet.src, packet.dst, packet.hop, packet.body) {
        Ok(message) => only_prefix_in(message),
        Err(_) => None,
    }
}

/// The same of a message.
#[tactic(auto, unfolding(crate::specs::Advertisements::prefixes_in, icmp6::specs::Blocks::options_at))]
fn only_prefix_in(message: Msg<'_>) -> Option<(u8, Ip6)>
    requires { AreOptions (options_in (message_view message)) }
    ensures { IsOnly result (prefixes_in (Some (message_view message.entry))) }
{
    match message {
        Msg::RouterAdvert {
            options: blocks,
            ..
        } => only_prefix_of(options(blocks)),
        Msg::EchoRequest { .. }
        | Msg::EchoReply { .. }
        | Msg::RouterSolicit { .. }
        | Msg::Other { .. } => None,
    }
}

/// The Prefix Information among options, where there is exactly one.
fn only_prefix_of(left: Options<'_>) -> Option<(u8, Ip6)>
    ensures { IsOnly result (filter_map prefix_of (options_left left.entry)) }
{
    let mut found = None;
    for option in left {
        if let Opt::Prefix { length, prefix, .. } = option {
            if found.is_some() {
                return None;
            }
            found = Some((length, prefix));
        }
    }
    found
}

/// Whether a prefix is that of the client's server.
fn is_own_prefix(settings: &Settings, prefix: (u8, Ip6)) -> bool
    ensures { result ≡ is_own_prefix settings.now prefix }
{
    prefix.0 == PREFIX_BITS && is_teredo(prefix.1) && server_of(prefix.1) == settings.primary
}
