//! Writing a message: a head for each type, what follows it, and the checksum.
ghost use Rattle.std.specs.Prelude.{◌≡◌, ℕ, ◌+◌, ◌≤◌, [], ◌∷◌, ◌++◌, length, take, drop, IfOk};
ghost use Rattle.byteorder.specs.Endian.{big_bytes};
ghost use Rattle.td_base.specs.Bytes.{Writes};
ghost use Rattle.icmp6.specs.Message.{message_view, message_at};
ghost use Rattle.icmp6.specs.Layout.{layout, message_len, message_bytes};
ghost use Rattle.icmp6.specs.Grammar.{MessageFits, IsValid, MessageBytes};

use crate::message::Msg;
use crate::numbers::{
    ADVERT_LEN, ECHO_LEN, ECHO_REPLY, ECHO_REQUEST, HEAD_LEN, MESSAGE_MAX, ROUTER_ADVERT,
    ROUTER_SOLICIT, SOLICIT_LEN,
};
use crate::sum::checksum;
use td_base::{Ip6, Room, put, put16};

/// How many bytes a message has.
#[inline(always)]
fn len_of(m: &Msg<'_>) -> usize
    requires { message_len (message_view m.now) ≤ MESSAGE_MAX }
    ensures { result ≡ message_len (message_view m.now) }
{
    match *m {
        Msg::EchoRequest { body, .. } | Msg::EchoReply { body, .. } => ECHO_LEN + body.len(),
        Msg::RouterSolicit { options } => SOLICIT_LEN + options.len(),
        Msg::RouterAdvert { options, .. } => ADVERT_LEN + options.len(),
        Msg::Other { rest, .. } => HEAD_LEN + rest.len(),
    }
}

/// An echo before its data, with checksum 0.
#[inline(always)]
fn echo_head(kind: u8, id: u16, seq: u16) -> [u8; ECHO_LEN]
    ensures { result ≡ kind ∷ 0 ∷ 0 ∷ 0 ∷ big_bytes 2 id ++ big_bytes 2 seq }
{
    let [a, b] = id.to_be_bytes();
    let [c, d] = seq.to_be_bytes();
    [kind, 0, 0, 0, a, b, c, d]
}

/// An advertisement before its options, with checksum 0.
#[inline(always)]
fn advert_head(hop: u8, flags: u8, life: u16, reach: u32, retrans: u32) -> [u8; ADVERT_LEN]
    ensures { result ≡ ROUTER_ADVERT ∷ 0 ∷ 0 ∷ 0 ∷ hop ∷ flags ∷ (big_bytes 2 life ++ (big_bytes 4 reach ++ big_bytes 4 retrans)) }
{
    let [a, b] = life.to_be_bytes();
    let [c, d, e, f] = reach.to_be_bytes();
    let [g, h, i, j] = retrans.to_be_bytes();
    [
        ROUTER_ADVERT,
        0,
        0,
        0,
        hop,
        flags,
        a,
        b,
        c,
        d,
        e,
        f,
        g,
        h,
        i,
        j,
    ]
}

/// Type and code, with checksum 0.
#[inline(always)]
fn other_head(kind: u8, code: u8) -> [u8; HEAD_LEN]
    ensures { result ≡ kind ∷ code ∷ 0 ∷ 0 ∷ [] }
{
    [kind, code, 0, 0]
}

/// Puts a head and what follows it to the front.
#[inline(always)]
fn put_parts(out: &mut [u8], head: &[u8], tail: &[u8]) -> usize
    requires { length head.now + length tail.now ≤ length out.old }
    ensures put { out.new ≡ (head.now ++ tail.now) ++ drop result out.old }
    ensures after { result ≡ length head.now + length tail.now }
{
    let at = put(out, 0, head);
    put(out, at, tail)
}

/// Puts a message with checksum 0 to the front.
#[inline(always)]
fn put_plain(m: &Msg<'_>, out: &mut [u8]) -> usize
    requires most { message_len (message_view m.now) ≤ MESSAGE_MAX }
    requires room { message_len (message_view m.now) ≤ length out.old }
    ensures put { out.new ≡ layout 0 0 (message_view m.now) ++ drop result out.old }
    ensures after { result ≡ message_len (message_view m.now) }
    ensures fits { MessageFits (message_view m.now) }
{
    match *m {
        Msg::EchoRequest { id, seq, body } => {
            put_parts(out, &echo_head(ECHO_REQUEST, id, seq), body)
        }
        Msg::EchoReply { id, seq, body } => put_parts(out, &echo_head(ECHO_REPLY, id, seq), body),
        Msg::RouterSolicit { options } => {
            put_parts(out, &[ROUTER_SOLICIT, 0, 0, 0, 0, 0, 0, 0], options)
        }
        Msg::RouterAdvert {
            hop,
            flags,
            life,
            reach,
            retrans,
            options,
        } => put_parts(out, &advert_head(hop, flags, life, reach, retrans), options),
        Msg::Other { kind, code, rest } => put_parts(out, &other_head(kind, code), rest),
    }
}

/// Writes the message with its checksum to the front of `out`.
#[inline(always)]
pub fn write(m: &Msg<'_>, src: Ip6, dst: Ip6, out: &mut [u8]) -> Result<usize, Room>
    requires { message_len (message_view m.now) ≤ MESSAGE_MAX }
    /// `write` puts the message's bytes, with the right checksum, at the front of the buffer and leaves the rest. It
    /// refuses exactly where the buffer is shorter, and then changes nothing.
    /// Needs: at most 1,360 bytes.
    ensures written { Writes (message_bytes src dst (message_view m.now)) out.old out.new result }
    // It is the message's spelling, where the message may come with a hop limit.
    /// See `written`.
    ensures spelled { IfOk result (λ n. (hop : ℕ) → IsValid src hop (message_view m.now) → MessageBytes src dst hop (message_view m.now) (take n out.new)) }
    /// What was written reads back, from a source and with a hop limit that the message may have.
    /// Needs: at most 1,360 bytes.
    ensures again { IfOk result (λ n. (hop : ℕ) → IsValid src hop (message_view m.now) → message_at src dst hop (take n out.new) ≡ Ok (message_view m.now)) }
{
    let needed = len_of(m);
    if out.len() < needed {
        return Err(Room { needed });
    }
    let len = put_plain(m, out);
    let sum = checksum(src, dst, &out[..len]);
    put16(out, 2, sum);
    Ok(len)
}
