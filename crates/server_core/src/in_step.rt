//! The server's table carried out in a step.
ghost use Rattle.std.specs.Prelude.{◌≡◌, ◌≤◌, length, Some, None};
ghost use Rattle.ipv6_packet.specs.declared.header.TheConstants.{PACKET_MAX};
ghost use Rattle.server_core.specs.Outputs.{advert_bytes, forwarded};
ghost use Rattle.server_core.specs.Server.{server_row, sends_one, answering_side};

use crate::advertisement::write_advert;
use crate::decision::{Decision, decide};
use crate::forwarded::{write_alone, write_with_origin};
use crate::server::{ServerSettings, answering_side};
use td_base::{Ep, Ip6, Side};
use teredo_node::{Fate, Step};

/// The table's step, whose one datagram is written where it lies: no buffer is cleared for it, and no byte of it is
/// copied once more.
pub fn answer_in(settings: &ServerSettings, side: Side, from: Ep, bytes: &[u8], step: &mut Step)
    ensures { step.new ≡ server_row settings.now side from bytes.now }
{
    match decide(settings, from, bytes) {
        Decision::Dropped(fate) => step.reset(fate),
        Decision::Advert { nonce, client } => {
            send_advert(settings, side, from, nonce, client, step)
        }
        Decision::ForwardOrigin { to, packet } => send_with_origin(to, from, packet, step),
        Decision::Forward { to, packet } => send_alone(to, packet, step),
        Decision::Six(span) => {
            step.reset(Fate::Six);
            step.set_six(span);
        }
    }
}

/// Answers a client's solicitation.
#[inline(always)]
fn send_advert(
    settings: &ServerSettings,
    side: Side,
    from: Ep,
    nonce: Option<u64>,
    client: Ip6,
    step: &mut Step,
)
    ensures { step.new ≡ sends_one Fate.Advert (answering_side side client) from (advert_bytes settings.now from nonce client) }
{
    step.reset(Fate::Advert);
    step.push_with(answering_side(side, client), from, |out| {
        write_advert(settings, from, nonce, client, out)
    });
}

/// Sends a packet on to another client, with the origin `from`.
#[inline(always)]
fn send_with_origin(to: Ep, from: Ep, packet: &[u8], step: &mut Step)
    requires { length packet.now ≤ PACKET_MAX }
    ensures { step.new ≡ sends_one Fate.ForwardOrigin Side.Primary to (forwarded (Some from) packet.now) }
{
    step.reset(Fate::ForwardOrigin);
    step.push_with(
        Side::Primary,
        to,
        |out| write_with_origin(from, packet, out),
    );
}

/// Sends a packet on to another server's client, as it is.
#[inline(always)]
fn send_alone(to: Ep, packet: &[u8], step: &mut Step)
    requires { length packet.now ≤ PACKET_MAX }
    ensures { step.new ≡ sends_one Fate.Forward Side.Primary to (forwarded None packet.now) }
{
    step.reset(Fate::Forward);
    step.push_with(Side::Primary, to, |out| write_alone(packet, out));
}
