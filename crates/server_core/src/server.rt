//! The server.
ghost use Rattle.std.specs.Prelude.{◌≡◌, ◌≤◌};
ghost use Rattle.server_core.specs.Server.{server_row, answering_side};
ghost use Rattle.server_core.specs.Answers.{Answers};
ghost use Rattle.server_core.specs.Bounds.{IsShort, IsNamed, GoesAway, EndsThere, outputs};

use crate::advertisement::write_advert;
use crate::decision::{Decision, decide};
use crate::forwarded::{write_alone, write_with_origin};
use crate::in_step::answer_in;
use crate::reply::Answer;
use std::marker::Model;
use td_base::{DATAGRAM_MAX, Ep, Ip4, Ip6, Policy, Side};
use teredo_addr::has_cone;
use teredo_node::{Fate, Step};

/// The most bytes that what is sent is longer than the datagram that drew it: an origin of 8, and an advertisement
/// of 56 for a solicitation of 8.
pub const GROWTH_MAX: usize = 56;

/// A server's two addresses, and which addresses it takes for global.
#[derive(Clone, Copy, Debug)]
pub struct ServerSettings {
    pub primary: Ip4,
    pub secondary: Ip4,
    pub policy: Policy,
}

/// A Teredo server. It keeps nothing but its settings.
#[derive(Drop)]
pub struct Server {
    settings: ServerSettings,
}

impl Model for Server {
    ghost use Rattle.server_core.specs.declared.server.ServerSettings.{ServerSettings};

    ghost Value = { ServerSettings };

    ghost view = { λ s. s.settings };
}

impl Server {
    pub fn new(primary: Ip4, secondary: Ip4, policy: Policy) -> Server
        /// A server has the addresses and the policy that it was made with.
        ensures { result ≡ record { primary = primary; secondary = secondary; policy = policy } }
    {
        Server {
            settings: ServerSettings {
                primary,
                secondary,
                policy,
            },
        }
    }

    /// What the server does with a datagram that came from `from` to the address `side`. What it sends stands
    /// at the front of `out`.
    pub fn answer(&self, side: Side, from: Ep, bytes: &[u8], out: &mut [u8; DATAGRAM_MAX]) -> Answer
        /// The answer to a datagram is that of the first line of the server's table that holds. It is the drop with its
        /// name, the one datagram with its bytes, its side and its destination, or the packet for the IPv6 side. It is
        /// stated in `Server.antt`, with the table in `Rules.antt`, its conditions in `Conditions.antt` and its outputs
        /// in `Outputs.antt`; `Answers.antt`. What a packet is, its message and whether that is ill-formed stand in
        /// `bubble/Bubbles.antt` and `bubble/Messages.antt`, the first line that holds in `teredo_node/Rows.antt`.
        /// Leaves open: that the table is RFC 4380's: `docs/RULES.md` names the sections, for reading.
        ensures row { Answers result out.new (server_row self.now side from bytes.now) }
        /// A datagram draws one output at most.
        ensures one { outputs (server_row self.now side from bytes.now) ≤ 1 }
        /// What is dropped has the fate of a drop, and what is sent hasn't.
        ensures named { IsNamed result }
        /// What is sent is at most 56 bytes longer than the datagram that drew it. A packet for the IPv6 side lies in
        /// the datagram.
        /// Leaves open: how often a client may ask.
        ensures short { IsShort result bytes.now }
        /// What is sent goes to a usable endpoint that isn't the server's own.
        ensures away { GoesAway self.now result }
        /// What the server sends, where it comes back to the server itself, draws nothing.
        /// Leaves open: loops over several machines with other rules.
        ensures quiet { EndsThere self.now result out.new }
    {
        answer_by(&self.settings, side, from, bytes, out)
    }

    /// The same in a step.
    pub(crate) fn answer_into(&self, side: Side, from: Ep, bytes: &[u8], step: &mut Step)
        ensures { step.new ≡ server_row self.now side from bytes.now }
    {
        answer_in(&self.settings, side, from, bytes, step)
    }
}

/// The side that an advertisement leaves from: the other one where the client asks whether its NAT lets in what
/// comes from an address that it sent nothing to (RFC 4380, section 5.3.2).
pub(crate) fn answering_side(side: Side, client: Ip6) -> Side
    ensures { result ≡ answering_side side client }
{
    if has_cone(client) { side.other() } else { side }
}

/// The table and its outputs, over the settings alone.
fn answer_by(
    settings: &ServerSettings,
    side: Side,
    from: Ep,
    bytes: &[u8],
    out: &mut [u8; DATAGRAM_MAX],
) -> Answer
    ensures row { Answers result out.new (server_row settings.now side from bytes.now) }
    ensures named { IsNamed result }
    ensures short { IsShort result bytes.now }
    ensures away { GoesAway settings.now result }
{
    match decide(settings, from, bytes) {
        Decision::Dropped(fate) => Answer::Drop { fate },
        Decision::Advert { nonce, client } => Answer::Send {
            fate: Fate::Advert,
            side: answering_side(side, client),
            to: from,
            len: write_advert(settings, from, nonce, client, out),
        },
        Decision::ForwardOrigin { to, packet } => Answer::Send {
            fate: Fate::ForwardOrigin,
            side: Side::Primary,
            to,
            len: write_with_origin(from, packet, out),
        },
        Decision::Forward { to, packet } => Answer::Send {
            fate: Fate::Forward,
            side: Side::Primary,
            to,
            len: write_alone(packet, out),
        },
        Decision::Six(span) => Answer::Six { span },
    }
}
