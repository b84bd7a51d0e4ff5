//! Reading a message: the tests that types share, a reader for each type, and the whole.
ghost use Rattle.std.specs.Prelude.{◌≡◌, ◌≤◌, length, IfOk, IfErr};
ghost use Rattle.td_base.specs.Results.{Gives};
ghost use Rattle.icmp6.specs.Message.{Message, message_view, options_in, has_len, has_hop, has_code, has_source};
ghost use Rattle.icmp6.specs.Message.{echo_request_at, echo_reply_at, solicit_at, advert_at, message_at};
ghost use Rattle.icmp6.specs.Options.{AreOptions};
ghost use Rattle.icmp6.specs.Grammar.{MessageBytes};
ghost use Rattle.icmp6.specs.Faults.{IsFirstMessageFault};

use crate::fault::IcmpFault;
use crate::message::Msg;
use crate::numbers::{
    ADVERT_LEN, ECHO_LEN, ECHO_REPLY, ECHO_REQUEST, HEAD_LEN, ROUTER_ADVERT, ROUTER_HOP,
    ROUTER_SOLICIT, SOLICIT_LEN,
};
use crate::sum::checksum;
use crate::walk::are_whole;
use td_base::{Ip6, field16, field32, is_link_local};

/// Short: the fields of the message's type don't stand there.
#[inline(always)]
fn has_len(body: &[u8], least: usize) -> Result<(), IcmpFault>
    ensures { Gives (λ x. x) result (has_len least body.now) }
{
    if body.len() < least {
        return Err(IcmpFault::Short { len: body.len() });
    }
    Ok(())
}

/// HopLimit: RFC 4861, section 6.1.
#[inline(always)]
fn has_hop(hop: u8) -> Result<(), IcmpFault>
    ensures { Gives (λ x. x) result (has_hop hop) }
{
    if hop != ROUTER_HOP {
        return Err(IcmpFault::HopLimit { hop });
    }
    Ok(())
}

/// Code: RFC 4443, section 4, and RFC 4861, section 6.1.
#[inline(always)]
fn has_code(body: &[u8]) -> Result<(), IcmpFault>
    requires { HEAD_LEN ≤ length body.now }
    ensures { Gives (λ x. x) result (has_code body.now) }
{
    if body[1] != 0 {
        return Err(IcmpFault::Code { code: body[1] });
    }
    Ok(())
}

/// Source: RFC 4861, section 6.1.2.
#[inline(always)]
fn has_source(src: Ip6) -> Result<(), IcmpFault>
    ensures { Gives (λ x. x) result (has_source src) }
{
    if !is_link_local(src) {
        return Err(IcmpFault::Source);
    }
    Ok(())
}

#[inline(always)]
#[tactic(auto, unfolding(crate::specs::Message::echo_request_at))]
fn echo_request(body: &[u8]) -> Result<Msg<'_>, IcmpFault>
    requires { HEAD_LEN ≤ length body.now }
    ensures { Gives message_view result (echo_request_at body.now) }
{
    has_len(body, ECHO_LEN)?;
    has_code(body)?;
    Ok(Msg::EchoRequest {
        id: field16(body, 4),
        seq: field16(body, 6),
        body: &body[ECHO_LEN..],
    })
}

#[inline(always)]
#[tactic(auto, unfolding(crate::specs::Message::echo_reply_at))]
fn echo_reply(body: &[u8]) -> Result<Msg<'_>, IcmpFault>
    requires { HEAD_LEN ≤ length body.now }
    ensures { Gives message_view result (echo_reply_at body.now) }
{
    has_len(body, ECHO_LEN)?;
    has_code(body)?;
    Ok(Msg::EchoReply {
        id: field16(body, 4),
        seq: field16(body, 6),
        body: &body[ECHO_LEN..],
    })
}

#[inline(always)]
#[tactic(auto, unfolding(crate::specs::Message::solicit_at))]
fn router_solicit(hop: u8, body: &[u8]) -> Result<Msg<'_>, IcmpFault>
    requires { HEAD_LEN ≤ length body.now }
    ensures { Gives message_view result (solicit_at hop body.now) }
{
    has_len(body, SOLICIT_LEN)?;
    has_hop(hop)?;
    has_code(body)?;
    are_whole(body, SOLICIT_LEN)?;
    Ok(Msg::RouterSolicit {
        options: &body[SOLICIT_LEN..],
    })
}

#[inline(always)]
#[tactic(auto, unfolding(crate::specs::Message::advert_at))]
fn router_advert(src: Ip6, hop: u8, body: &[u8]) -> Result<Msg<'_>, IcmpFault>
    requires { HEAD_LEN ≤ length body.now }
    ensures { Gives message_view result (advert_at src hop body.now) }
{
    has_len(body, ADVERT_LEN)?;
    has_hop(hop)?;
    has_code(body)?;
    has_source(src)?;
    are_whole(body, ADVERT_LEN)?;
    Ok(Msg::RouterAdvert {
        hop: body[4],
        flags: body[5],
        life: field16(body, 6),
        reach: field32(body, 8),
        retrans: field32(body, 12),
        options: &body[ADVERT_LEN..],
    })
}

/// The message of the body of a packet, all of the body; `hop` is the packet's hop limit.
#[inline(always)]
pub fn read(src: Ip6, dst: Ip6, hop: u8, body: &[u8]) -> Result<Msg<'_>, IcmpFault>
    requires { length body.now ≤ 65535 }
    /// What is read is the message that the list of bytes is, between these addresses, with this hop limit.
    /// Needs: at most 65,535 bytes.
    /// Leaves open: what an option means to a node.
    ensures found { IfOk result (λ m. MessageBytes src dst hop (message_view m) body.now) }
    /// A list that is a message is read as it.
    /// Needs: at most 65,535 bytes.
    ensures only { (m : Message) → MessageBytes src dst hop m body.now → Gives message_view result (Ok m) }
    /// A list that is no message is refused by the first fault, in the order of the rules, with the values or the place
    /// found.
    /// Needs: at most 65,535 bytes.
    ensures fault { IfErr result (λ e. IsFirstMessageFault src dst hop body.now e) }
    // What `options` wants.
    /// See `options`: `all`.
    ensures lends { IfOk result (λ m. AreOptions (options_in (message_view m))) }
    // The message, or the first fault, as one function of the bytes.
    /// See `fault`.
    ensures exact { Gives message_view result (message_at src dst hop body.now) }
{
    message_of(src, dst, hop, body)
}

#[inline(always)]
#[tactic(auto, unfolding(crate::specs::Message::message_at))]
fn message_of(src: Ip6, dst: Ip6, hop: u8, body: &[u8]) -> Result<Msg<'_>, IcmpFault>
    requires { length body.now ≤ 65535 }
    ensures { Gives message_view result (message_at src dst hop body.now) }
{
    if body.len() < HEAD_LEN {
        return Err(IcmpFault::Short { len: body.len() });
    }
    let said = field16(body, 2);
    let found = checksum(src, dst, body);
    if said != found {
        return Err(IcmpFault::Sum { said, found });
    }
    match body[0] {
        ECHO_REQUEST => echo_request(body),
        ECHO_REPLY => echo_reply(body),
        ROUTER_SOLICIT => router_solicit(hop, body),
        ROUTER_ADVERT => router_advert(src, hop, body),
        kind => Ok(Msg::Other {
            kind,
            code: body[1],
            rest: &body[HEAD_LEN..],
        }),
    }
}
