//! The lines of a payload.
ghost use Rattle.std.specs.Prelude.{◌≡◌, ◌+◌, ◌*◌, ◌≤◌, ◌++◌, length, IfSome};
ghost use Rattle.ipv6_packet.specs.Packets.{packet_view};
ghost use Rattle.bubble.specs.Payloads.{payload_view};
ghost use Rattle.show.specs.Lines.{number_digits, span_bytes, AreShortSpans, keys_line, auth_line, origin_line};
ghost use Rattle.show.specs.Lines.{packet_line, embedded_line, teredo_line, address_lines, kind_word, body_line};
ghost use Rattle.show.specs.Lines.{payload_lines};

use crate::line_texts::{LINE_ROOM, put_ep, put_field, put_hex, put_ip4, put_ip6};
use crate::page::{PAGE_LEN, Page};
use bubble::{Kind, Payload};
use indications::{Auth, NONCE, Origin};
use ipv6_packet::Packet;
use td_base::{DATAGRAM_MAX, Ip6, Span};
use teredo_addr::{TeredoAddr, of_ip6};

/// The most bytes of an identifier, and of an authentication value: their lengths stand in one byte.
pub const KEY_MAX: usize = 255;

/// The bytes of the flags in a Teredo address: RFC 4380, section 4.
pub const FLAGS: usize = 2;

/// Room for the line of an authentication, in bytes.
pub const AUTH_ROOM: usize = 1200;

/// The most bytes of a kind's word.
const KIND_LEN: usize = 6;

/// Room for the line of a body, in bytes.
pub const BODY_ROOM: usize = 2900;

/// Room for the lines of a payload, in bytes.
pub const PAYLOAD_ROOM: usize = 6000;

/// The bytes of a part of a datagram.
fn bytes_in(bytes: &[u8], span: Span) -> &[u8]
    requires { span.at + span.len ≤ length bytes.now }
    ensures value { result.now ≡ span_bytes bytes.now span }
    ensures long { length result.now ≡ span.len }
{
    &bytes[span.at..span.at + span.len]
}

/// Appends a nonce, in sixteen digits.
fn put_nonce(nonce: u64, page: &mut Page)
    requires { length page.old + 2 * NONCE ≤ PAGE_LEN }
    ensures text { page.new ≡ page.old ++ number_digits NONCE nonce }
    ensures long { length page.new ≡ length page.old + 2 * NONCE }
{
    page.push_digits(&nonce.to_be_bytes());
}

/// Appends an authentication: identifier, value, nonce and confirmation.
fn put_keys(bytes: &[u8], auth: Auth, page: &mut Page)
    requires spans { AreShortSpans bytes.now auth }
    requires room { length page.old + AUTH_ROOM ≤ PAGE_LEN }
    ensures text { page.new ≡ page.old ++ keys_line bytes.now auth }
    ensures short { length page.new ≤ length page.old + AUTH_ROOM }
{
    page.push_text(b"auth id ");
    put_hex(bytes_in(bytes, auth.id), page);
    page.push_text(b" value ");
    put_hex(bytes_in(bytes, auth.value), page);
    page.push_text(b" nonce ");
    put_nonce(auth.nonce, page);
    put_field(b" confirmation ", usize::from(auth.confirmation), page);
    page.push_text(b"\n");
}

/// Appends the line of an authentication, or that there is none.
fn put_auth(bytes: &[u8], auth: Option<Auth>, page: &mut Page)
    requires spans { IfSome auth (AreShortSpans bytes.now) }
    requires room { length page.old + AUTH_ROOM ≤ PAGE_LEN }
    ensures text { page.new ≡ page.old ++ auth_line bytes.now auth }
    ensures short { length page.new ≤ length page.old + AUTH_ROOM }
{
    match auth {
        None => page.push_text(b"auth none\n"),
        Some(auth) => put_keys(bytes, auth, page),
    }
}

/// Appends the line of an origin, or that there is none.
fn put_origin(origin: Option<Origin>, page: &mut Page)
    requires { length page.old + LINE_ROOM ≤ PAGE_LEN }
    ensures text { page.new ≡ page.old ++ origin_line origin }
    ensures short { length page.new ≤ length page.old + LINE_ROOM }
{
    match origin {
        None => page.push_text(b"origin none\n"),
        Some(origin) => {
            page.push_text(b"origin ");
            put_ep(origin.ep, page);
            page.push_text(b"\n");
        }
    }
}

/// Appends the numbers of an IPv6 header.
fn put_packet(packet: &Packet, page: &mut Page)
    requires { length page.old + LINE_ROOM ≤ PAGE_LEN }
    ensures text { page.new ≡ page.old ++ packet_line (packet_view packet.now) }
    ensures short { length page.new ≤ length page.old + LINE_ROOM }
{
    put_field(b"packet class ", usize::from(packet.class), page);
    put_field(b" flow ", packet.flow as usize, page);
    put_field(b" next ", usize::from(packet.next), page);
    put_field(b" hop ", usize::from(packet.hop), page);
    put_field(b" length ", packet.body.len(), page);
    page.push_text(b"\n");
}

/// Appends the flags of a Teredo address, in four digits.
fn put_flags(flags: u16, page: &mut Page)
    requires { length page.old + 2 * FLAGS ≤ PAGE_LEN }
    ensures text { page.new ≡ page.old ++ number_digits FLAGS flags }
    ensures long { length page.new ≡ length page.old + 2 * FLAGS }
{
    page.push_digits(&flags.to_be_bytes());
}

/// Appends what a Teredo address embeds.
fn put_embedded(addr: TeredoAddr, page: &mut Page)
    requires { length page.old + LINE_ROOM ≤ PAGE_LEN }
    ensures text { page.new ≡ page.old ++ embedded_line addr }
    ensures short { length page.new ≤ length page.old + LINE_ROOM }
{
    page.push_text(b"teredo server ");
    put_ip4(addr.server, page);
    page.push_text(b" flags ");
    put_flags(addr.flags, page);
    page.push_text(b" mapped ");
    put_ep(addr.mapped, page);
    page.push_text(b"\n");
}

/// Appends the second line of an address, where it is a Teredo address.
fn put_teredo(addr: Option<TeredoAddr>, page: &mut Page)
    requires { length page.old + LINE_ROOM ≤ PAGE_LEN }
    ensures text { page.new ≡ page.old ++ teredo_line addr }
    ensures short { length page.new ≤ length page.old + LINE_ROOM }
{
    match addr {
        None => {}
        Some(addr) => put_embedded(addr, page),
    }
}

/// Appends the line of an address behind its word, and what the address embeds.
fn put_address(word: &[u8], ip: Ip6, page: &mut Page)
    requires { length page.old + length word.now + 2 * LINE_ROOM ≤ PAGE_LEN }
    ensures text { page.new ≡ page.old ++ address_lines word.now ip }
    ensures short { length page.new ≤ length page.old + length word.now + 2 * LINE_ROOM }
{
    page.push_text(word);
    put_ip6(ip, page);
    page.push_text(b"\n");
    put_teredo(of_ip6(ip), page);
}

/// A kind's word.
fn kind_name(kind: Kind) -> &'static [u8]
    ensures word { result.now ≡ kind_word kind }
    ensures short { length result.now ≤ KIND_LEN }
{
    match kind {
        Kind::Bubble => b"bubble",
        Kind::Icmp => b"icmp",
        Kind::Data => b"data",
    }
}

/// Appends what a packet is, and its body.
fn put_body(packet: &Packet, page: &mut Page)
    requires body { length packet.now.body.now ≤ DATAGRAM_MAX }
    requires room { length page.old + BODY_ROOM ≤ PAGE_LEN }
    ensures { page.new ≡ page.old ++ body_line (packet_view packet.now) }
{
    page.push_text(b"body ");
    page.push_text(kind_name(bubble::kind(packet)));
    page.push_text(b" ");
    put_hex(packet.body, page);
    page.push_text(b"\n");
}

/// Appends the lines of a payload, whose datagram is `bytes`.
pub(crate) fn put_payload(bytes: &[u8], payload: &Payload, page: &mut Page)
    requires spans { IfSome payload.now.lead.auth (AreShortSpans bytes.now) }
    requires body { length payload.now.packet.body.now ≤ DATAGRAM_MAX }
    requires room { length page.old + PAYLOAD_ROOM ≤ PAGE_LEN }
    ensures { page.new ≡ page.old ++ payload_lines bytes.now (payload_view payload.now) }
{
    put_auth(bytes, payload.lead.auth, page);
    put_origin(payload.lead.origin, page);
    put_packet(&payload.packet, page);
    put_address(b"source ", payload.packet.src, page);
    put_address(b"destination ", payload.packet.dst, page);
    put_body(&payload.packet, page);
}
