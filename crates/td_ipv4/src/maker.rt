//! Datagrams that are made here.
ghost use Rattle.std.specs.Prelude.{◌≡◌, ◌≤◌, length, take, IfOk, Ok};
ghost use Rattle.td_base.specs.Bytes.{Writes};
ghost use Rattle.td_ipv4.specs.Datagrams.{udp4_view, Udp4Bytes};
ghost use Rattle.td_ipv4.specs.Tests.{udp4_at};
ghost use Rattle.td_ipv4.specs.Checksums.{plain_udp4, made_udp4, made_bytes};

use crate::numbers::TTL;
use crate::sums::{head_checksum, udp_checksum};
use crate::udp4::Udp4;
use crate::writer::write;
use td_base::{DATAGRAM_MAX, Ep, Room};

/// A datagram with both checksums 0.
#[inline(always)]
fn plain(src: Ep, dst: Ep, body: &[u8]) -> Udp4<'_>
    ensures { udp4_view result ≡ plain_udp4 src dst body.now }
{
    Udp4 {
        tos: 0,
        id: 0,
        frag: 0,
        ttl: TTL,
        head_sum: 0,
        options: &[],
        src,
        dst,
        udp_sum: 0,
        body,
    }
}

/// A datagram with its right checksums.
#[inline(always)]
fn datagram(src: Ep, dst: Ep, body: &[u8]) -> Udp4<'_>
    requires { length body.now ≤ DATAGRAM_MAX }
    ensures { udp4_view result ≡ made_udp4 src dst body.now }
{
    let plain = plain(src, dst, body);
    Udp4 {
        head_sum: head_checksum(&plain),
        udp_sum: udp_checksum(&plain),
        ..plain
    }
}

/// Writes a datagram of this body to the front of `out`, with its right checksums, and answers how many bytes it took.
pub fn make(src: Ep, dst: Ep, body: &[u8], out: &mut [u8]) -> Result<usize, Room>
    requires { length body.now ≤ DATAGRAM_MAX }
    /// `make` writes the datagram of two endpoints and a body, with a TTL of 64, nothing else set, and both checksums
    /// right; it reads back. A UDP checksum of 0 is written as its other spelling, ffff (RFC 768).
    /// Needs: a body of at most 1,400 bytes.
    ensures written { Writes (made_bytes src dst body.now) out.old out.new result }
    // It is a datagram's spelling.
    /// See `written`.
    ensures spelled { IfOk result (λ n. Udp4Bytes (made_udp4 src dst body.now) (take n out.new)) }
    // What was made reads back.
    /// See `written`.
    ensures again { IfOk result (λ n. udp4_at (take n out.new) ≡ Ok (made_udp4 src dst body.now)) }
{
    write(&datagram(src, dst, body), out)
}
