//! What the server's table makes of a datagram to it.
ghost use Rattle.std.specs.Prelude.{◌≡◌, ℕ, List};
ghost use Rattle.teredo_node.specs.Step.{Step};
ghost use Rattle.bubble.specs.Payloads.{payload_at};
ghost use Rattle.td_audit.specs.Datagrams.{datagram};
ghost use Rattle.td_audit.specs.Licences.{side_with};
ghost use Rattle.server_core.specs.Server.{server_row};
ghost use Rattle.server_core.specs.Answers.{Answers};
ghost use Rattle.td_explain.specs.Questions.{payload_reason, message_reason, reason_of, question_of, drawn_of};

use bubble::PayloadFault;
use icmp6::IcmpFault;
use server_core::{Answer, Server, ServerSettings};
use td_audit::{endpoint, side_with};
use td_base::{DATAGRAM_MAX, Ep, Side};
use teredo_node::Fate;

/// Why a datagram has the fate `malformed` or `icmp`.
#[derive(Clone, Copy, Debug, PartialEq, Eq)]
pub enum Reason {
    /// The first fault of the payload, at a place in the datagram.
    Payload(PayloadFault),
    /// The first fault of the ICMPv6 message, at a place in the message.
    Message(IcmpFault),
}

/// What a datagram draws from the server.
#[derive(Clone, Copy, Debug, PartialEq, Eq)]
pub enum Drawn {
    Nothing,
    /// A datagram of so many bytes, without its headers.
    Datagram { src: Ep, dst: Ep, len: usize },
    /// A packet of so many bytes for the IPv6 Internet.
    Six { len: usize },
}

/// A datagram to the server: to which of its sides, from where, and what the table says.
#[derive(Clone, Copy, Debug, PartialEq, Eq)]
pub struct Question {
    pub side: Side,
    pub src: Ep,
    pub fate: Fate,
    pub reason: Option<Reason>,
    pub drawn: Drawn,
}

/// The first fault of what is no payload.
fn payload_reason(body: &[u8]) -> Option<Reason>
    ensures { result ≡ payload_reason (payload_at body.now) }
{
    match bubble::read(body) {
        Ok(_) => None,
        Err(fault) => Some(Reason::Payload(fault)),
    }
}

/// The first fault of a payload's message.
fn message_reason(body: &[u8]) -> Option<Reason>
    ensures { result ≡ message_reason (payload_at body.now) }
{
    let Ok(payload) = bubble::read(body) else {
        return None;
    };
    let packet = &payload.packet;
    match icmp6::read(packet.src, packet.dst, packet.hop, packet.body) {
        Ok(_) => None,
        Err(fault) => Some(Reason::Message(fault)),
    }
}

/// Why a datagram has its fate, where the fate leaves that open.
fn reason_of(fate: Fate, body: &[u8]) -> Option<Reason>
    ensures { result ≡ reason_of fate body.now }
{
    match fate {
        Fate::Malformed => payload_reason(body),
        Fate::Icmp => message_reason(body),
        _ => None,
    }
}

/// What the server answers to a datagram to it. What it sends stands at the front of `out`.
pub(crate) fn answer_to(
    settings: &ServerSettings,
    src: Ep,
    dst: Ep,
    body: &[u8],
    out: &mut [u8; DATAGRAM_MAX],
) -> Answer
    ensures { Answers result out.new (server_row settings.now (side_with settings.now dst) src body.now) }
{
    let server = Server::new(settings.primary, settings.secondary, settings.policy);
    server.answer(side_with(settings, dst), src, body, out)
}

/// What an answer draws.
fn drawn_by(settings: &ServerSettings, answer: Answer) -> Drawn
    ensures { (out : List ℕ) (step : Step) → Answers answer out step → result ≡ drawn_of settings.now step.sends step.six }
{
    match answer {
        Answer::Drop { .. } => Drawn::Nothing,
        Answer::Send { side, to, len, .. } => Drawn::Datagram {
            src: endpoint(settings, side),
            dst: to,
            len,
        },
        Answer::Six { span } => Drawn::Six { len: span.len },
    }
}

/// The fate that goes with an answer.
fn fate_of(answer: Answer) -> Fate
    ensures { (out : List ℕ) (step : Step) → Answers answer out step → result ≡ step.fate }
{
    match answer {
        Answer::Drop { fate } => fate,
        Answer::Send { fate, .. } => fate,
        Answer::Six { .. } => Fate::Six,
    }
}

/// What the table makes of a datagram to the server, to which it answers so.
pub(crate) fn question_of(
    settings: &ServerSettings,
    src: Ep,
    dst: Ep,
    body: &[u8],
    answer: Answer,
) -> Question
    ensures { (out : List ℕ) → Answers answer out (server_row settings.now (side_with settings.now dst) src body.now)
        → result ≡ question_of settings.now (datagram src dst body.now) }
{
    let fate = fate_of(answer);
    Question {
        side: side_with(settings, dst),
        src,
        fate,
        reason: reason_of(fate, body),
        drawn: drawn_by(settings, answer),
    }
}
