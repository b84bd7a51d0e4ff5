//! What the server does with a datagram, before anything is written.
ghost use Rattle.std.specs.Prelude.{◌≡◌};
ghost use Rattle.server_core.specs.Server.{server_row};
ghost use Rattle.server_core.specs.Decision.{step_by, IsWarranted};

use crate::rules::{Rule, first_rule};
use crate::server::ServerSettings;
use indications::nonce_of;
use td_base::{Ep, Ip6, Side, Span};
use teredo_addr::embedded;
use teredo_node::Fate;

/// What the server does with a datagram, and what the output is made of.
#[derive(Clone, Copy, Debug)]
pub enum Decision<'a> {
    /// Nothing goes out.
    Dropped(Fate),
    /// An advertisement goes back.
    Advert { nonce: Option<u64>, client: Ip6 },
    /// A packet goes on with an origin.
    ForwardOrigin { to: Ep, packet: &'a [u8] },
    /// A packet goes on as it is.
    Forward { to: Ep, packet: &'a [u8] },
    /// A part of the datagram goes to the IPv6 Internet.
    Six(Span),
}

/// What the table says of a datagram that came from `from`. One function for all that carry it out: the reader and the
/// table are large, and each place that held them would hold them whole.
#[tactic(auto, unfolding(crate::specs::Server::server_row))]
pub fn decide<'a>(settings: &ServerSettings, from: Ep, bytes: &'a [u8]) -> Decision<'a>
    ensures row { (side : Side) → server_row settings.now side from bytes.now ≡ step_by settings.now side from result }
    ensures warrant { IsWarranted settings.now from bytes.now result }
{
    let Ok(payload) = bubble::read(bytes) else {
        return Decision::Dropped(Fate::Malformed);
    };
    let at = payload.lead.at;
    let packet = &payload.packet;
    match first_rule(settings, from, &payload) {
        Rule::Dropped(fate) => Decision::Dropped(fate),
        Rule::Advert => Decision::Advert {
            nonce: nonce_of(&payload.lead),
            client: packet.src,
        },
        Rule::ForwardOrigin => Decision::ForwardOrigin {
            to: embedded(packet.dst),
            packet: &bytes[at..],
        },
        Rule::Forward => Decision::Forward {
            to: embedded(packet.dst),
            packet: &bytes[at..],
        },
        Rule::Six => Decision::Six(Span {
            at,
            len: bytes.len() - at,
        }),
    }
}
