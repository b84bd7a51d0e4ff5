//! Datagrams into bytes.
ghost use Rattle.std.specs.Prelude.{◌≡◌, ◌≤◌, ◌%◌, length, take, bit_and, IfOk, Ok};
ghost use Rattle.td_base.specs.Bytes.{Writes};
ghost use Rattle.td_ipv4.specs.Datagrams.{udp4_view, total_len, udp4_bytes, Udp4Bytes};
ghost use Rattle.td_ipv4.specs.Tests.{udp4_at};

use crate::heads::{fixed_head, total_len, udp_head};
use crate::numbers::{FRAGMENT_BITS, OPTIONS_MAX, TOTAL_MAX, WORD};
use crate::udp4::Udp4;
use td_base::{Room, put};

/// Writes a datagram to the front of `out`, and answers how many bytes it took. Its checksums are those that it is given with.
#[inline(always)]
pub fn write(u: &Udp4<'_>, out: &mut [u8]) -> Result<usize, Room>
    requires whole { bit_and u.now.frag FRAGMENT_BITS ≡ 0 }
    requires words { length u.now.options.now % WORD ≡ 0 }
    requires options { length u.now.options.now ≤ OPTIONS_MAX }
    requires total { total_len (udp4_view u.now) ≤ TOTAL_MAX }
    /// `write` puts the datagram's bytes at the front of the buffer and leaves the rest, or refuses exactly where the
    /// buffer is shorter.
    /// Needs: no fragment, options of whole words and at most 40 bytes, at most 65,535 bytes in all.
    ensures written { Writes (udp4_bytes (udp4_view u.now)) out.old out.new result }
    // It is a datagram's spelling.
    /// See `written`.
    ensures spelled { IfOk result (λ n. Udp4Bytes (udp4_view u.now) (take n out.new)) }
    /// What `write` wrote reads back as the datagram.
    /// Needs: no fragment, options of whole words and at most 40 bytes, at most 65,535 bytes in all.
    ensures again { IfOk result (λ n. udp4_at (take n out.new) ≡ Ok (udp4_view u.now)) }
{
    let needed = total_len(u) as usize;
    if out.len() < needed {
        return Err(Room { needed });
    }
    let at = put(out, 0, &fixed_head(u, u.head_sum));
    let at = put(out, at, u.options);
    let at = put(out, at, &udp_head(u, u.udp_sum));
    Ok(put(out, at, u.body))
}
