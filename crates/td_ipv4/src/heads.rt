//! The two headers of a datagram, as bytes.
ghost use Rattle.std.specs.Prelude.{◌≡◌, ◌≤◌, length};
ghost use Rattle.td_base.specs.Ep.{IsEp};
ghost use Rattle.td_ipv4.specs.Datagrams.{udp4_view, udp_len, total_len, fixed_head, udp_head, udp4_bytes};

use crate::numbers::{HEAD_MIN, IPV4, OPTIONS_MAX, TOTAL_MAX, UDP, UDP_HEAD, WORD};
use crate::udp4::Udp4;
use td_base::Ip4;

/// UDP's length.
#[inline(always)]
pub fn udp_len(u: &Udp4<'_>) -> u16
    requires { total_len (udp4_view u.now) ≤ TOTAL_MAX }
    ensures { result ≡ udp_len (udp4_view u.now) }
{
    (UDP_HEAD + u.body.len()) as u16
}

/// The whole's length.
#[inline(always)]
pub fn total_len(u: &Udp4<'_>) -> u16
    requires { total_len (udp4_view u.now) ≤ TOTAL_MAX }
    ensures parts { result ≡ total_len (udp4_view u.now) }
    ensures whole { result ≡ length (udp4_bytes (udp4_view u.now)) }
{
    // This read tells the proof that the addresses have four bytes each.
    let _id = u.id;
    (HEAD_MIN + u.options.len() + udp_len(u) as usize) as u16
}

/// The header of IPv4 before its options, with this checksum.
#[inline(always)]
pub fn fixed_head(u: &Udp4<'_>, sum: u16) -> [u8; HEAD_MIN]
    requires options { length u.now.options.now ≤ OPTIONS_MAX }
    requires total { total_len (udp4_view u.now) ≤ TOTAL_MAX }
    ensures bytes { result ≡ fixed_head sum (udp4_view u.now) }
    ensures src { IsEp u.now.src }
    ensures dst { IsEp u.now.dst }
{
    let words = ((HEAD_MIN + u.options.len()) / WORD) as u8;
    let [a, b] = total_len(u).to_be_bytes();
    let [c, d] = u.id.to_be_bytes();
    let [e, f] = u.frag.to_be_bytes();
    let [g, h] = sum.to_be_bytes();
    let Ip4([i, j, k, l]) = u.src.ip;
    let Ip4([m, n, o, p]) = u.dst.ip;
    [
        IPV4 << 4 | words,
        u.tos,
        a,
        b,
        c,
        d,
        e,
        f,
        u.ttl,
        UDP,
        g,
        h,
        i,
        j,
        k,
        l,
        m,
        n,
        o,
        p,
    ]
}

/// UDP's header, with this checksum.
#[inline(always)]
pub fn udp_head(u: &Udp4<'_>, sum: u16) -> [u8; UDP_HEAD]
    requires { total_len (udp4_view u.now) ≤ TOTAL_MAX }
    ensures { result ≡ udp_head sum (udp4_view u.now) }
{
    let [a, b] = u.src.port.to_be_bytes();
    let [c, d] = u.dst.port.to_be_bytes();
    let [e, f] = udp_len(u).to_be_bytes();
    let [g, h] = sum.to_be_bytes();
    [a, b, c, d, e, f, g, h]
}
