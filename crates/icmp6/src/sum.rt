//! The checksum.
ghost use Rattle.std.specs.Prelude.{◌≡◌, ◌≤◌, length};
ghost use Rattle.icmp6.specs.Checksum.{checksum_of};

use crate::numbers::{HEAD_LEN, ICMPV6};
use td_base::{Ip6, field16, folded_sum, unfolded_sum};

/// The right checksum of a message, whatever its checksum field says: RFC 4443, section 2.3.
#[inline(always)]
pub fn checksum(src: Ip6, dst: Ip6, body: &[u8]) -> u16
    requires least { HEAD_LEN ≤ length body.now }
    requires most { length body.now ≤ 65535 }
    ensures { result ≡ checksum_of src dst body.now }
{
    let addresses = unfolded_sum(&dst.0, unfolded_sum(&src.0, 0));
    let head = body.len() as u32 + u32::from(ICMPV6) + u32::from(field16(body, 0));
    let front = addresses + u128::from(head);
    !folded_sum(unfolded_sum(&body[HEAD_LEN..], front))
}
