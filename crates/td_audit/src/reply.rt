//! What a server of a capture answers.
ghost use Rattle.std.specs.Prelude.{◌≡◌, Some};
ghost use Rattle.td_audit.specs.Datagrams.{datagram, is_audited};
ghost use Rattle.td_audit.specs.Licences.{side_with, output};
ghost use Rattle.td_audit.specs.Replies.{Replies};
ghost use Rattle.server_core.specs.Bounds.{endpoint};

use server_core::{Answer, Server, ServerSettings};
use td_base::{DATAGRAM_MAX, Ep, Side, TEREDO_PORT};

/// The server's endpoint on a side.
pub fn endpoint(settings: &ServerSettings, side: Side) -> Ep
    /// What judges a datagram is there for the layer above too: the server's endpoints and sides, what it sends on a
    /// datagram, and a datagram as the key of a map.
    /// Needs: memory, for the key.
    ensures { result ≡ endpoint settings.now side }
{
    let ip = match side {
        Side::Primary => settings.primary,
        Side::Secondary => settings.secondary,
    };
    Ep {
        ip,
        port: TEREDO_PORT,
    }
}

/// Whether an endpoint is one of the server's two.
#[tactic(auto, unfolding(crate::specs::Datagrams::is_audited))]
pub fn is_audited(settings: &ServerSettings, ep: Ep) -> bool
    /// See `endpoint`.
    ensures { result ≡ is_audited settings.now ep }
{
    if ep == endpoint(settings, Side::Primary) {
        return true;
    }
    ep == endpoint(settings, Side::Secondary)
}

/// The server's side that has an endpoint.
pub fn side_with(settings: &ServerSettings, ep: Ep) -> Side
    /// See `endpoint`.
    ensures { result ≡ side_with settings.now ep }
{
    if ep == endpoint(settings, Side::Primary) {
        return Side::Primary;
    }
    Side::Secondary
}

/// What the server sends on a datagram: from where, to where, and how many bytes of a buffer.
#[derive(Clone, Copy, Debug)]
pub struct Reply {
    pub from: Ep,
    pub to: Ep,
    pub len: usize,
}

/// What the server sends on the datagram, where it is to the server. The bytes stand at the front of `out`.
pub fn reply_to(
    settings: &ServerSettings,
    src: Ep,
    dst: Ep,
    body: &[u8],
    out: &mut [u8; DATAGRAM_MAX],
) -> Option<Reply>
    /// See `endpoint`.
    ensures { Replies settings.now result out.new (output settings.now (Some (datagram src dst body.now))) }
{
    if !is_audited(settings, dst) {
        return None;
    }
    let server = Server::new(settings.primary, settings.secondary, settings.policy);
    match server.answer(side_with(settings, dst), src, body, out) {
        Answer::Drop { .. } => None,
        Answer::Six { .. } => None,
        Answer::Send { side, to, len, .. } => Some(Reply {
            from: endpoint(settings, side),
            to,
            len,
        }),
    }
}
