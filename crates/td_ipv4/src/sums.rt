//! The checksums of a datagram.
ghost use Rattle.std.specs.Prelude.{◌≡◌, ◌≤◌, length};
ghost use Rattle.td_ipv4.specs.Datagrams.{udp4_view, total_len};
ghost use Rattle.td_ipv4.specs.Checksums.{head_checksum, other_spelling, udp_checksum};

use crate::heads::{fixed_head, udp_len};
use crate::numbers::{NO_SUM, OPTIONS_MAX, TOTAL_MAX, UDP};
use crate::udp4::Udp4;
use td_base::{folded_sum, unfolded_sum};

/// The right checksum of the header, whatever it says: RFC 791, section 3.1.
#[inline(always)]
pub fn head_checksum(u: &Udp4<'_>) -> u16
    requires options { length u.now.options.now ≤ OPTIONS_MAX }
    requires total { total_len (udp4_view u.now) ≤ TOTAL_MAX }
    ensures { result ≡ head_checksum (udp4_view u.now) }
{
    let fixed = unfolded_sum(&fixed_head(u, 0), 0);
    !folded_sum(unfolded_sum(u.options, fixed))
}

/// A sum of 0 in its other spelling: RFC 768.
#[inline(always)]
fn told(sum: u16) -> u16
    ensures { result ≡ other_spelling sum }
{
    if sum == NO_SUM { u16::MAX } else { sum }
}

/// The right checksum of UDP, whatever it says: RFC 768.
#[inline(always)]
pub fn udp_checksum(u: &Udp4<'_>) -> u16
    requires { total_len (udp4_view u.now) ≤ TOTAL_MAX }
    ensures { result ≡ udp_checksum (udp4_view u.now) }
{
    let addresses = unfolded_sum(&u.dst.ip.0, unfolded_sum(&u.src.ip.0, 0));
    let len = u32::from(udp_len(u));
    let head = u32::from(UDP) + len + u32::from(u.src.port) + u32::from(u.dst.port) + len;
    let front = addresses + u128::from(head);
    told(!folded_sum(unfolded_sum(u.body, front)))
}
