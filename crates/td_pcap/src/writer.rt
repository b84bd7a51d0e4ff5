//! Captures into bytes.
ghost use Rattle.std.specs.Prelude.{◌≡◌, ◌+◌, ◌≤◌, length, take, IfOk, Ok, Some};
ghost use Rattle.td_base.specs.Bytes.{Writes};
ghost use Rattle.td_pcap.specs.Heads.{BeginsWithHead, magic_of, head_bytes, file_head};
ghost use Rattle.td_pcap.specs.Records.{captured, record_bytes, next_record, StandsAt};

use crate::head::{HEAD, Head, LINK_RAW, MAGIC_MICRO, MAGIC_NANO, MAJOR, MINOR};
use crate::order::{put_ordered16, put_ordered32};
use crate::record::{KEPT_MAX, REC_HEAD, Rec};
use td_base::{Room, put};

/// The number of the magic.
#[inline(always)]
fn magic_of(nano: bool) -> u32
    ensures { result ≡ magic_of nano }
{
    if nano {
        return MAGIC_NANO;
    }
    MAGIC_MICRO
}

/// Writes a head to the front of `out`, and answers how many bytes it took: `HEAD`.
#[inline(always)]
pub fn write_head(head: &Head, out: &mut [u8]) -> Result<usize, Room>
    /// A head or a record is written in its one spelling at the front of the buffer, or refused exactly where the
    /// buffer is shorter.
    /// Needs: at most 65,535 bytes of a record.
    ensures written { Writes (head_bytes head.now) out.old out.new result }
    // A capture begins with it.
    /// See `written`.
    ensures spelled { IfOk result (λ n. BeginsWithHead head.now (take n out.new)) }
    /// A head and a record that were written read back.
    /// Needs: at most 65,535 bytes of a record.
    ensures again { IfOk result (λ n. file_head (take n out.new) ≡ Ok head.now) }
{
    if out.len() < HEAD {
        return Err(Room { needed: HEAD });
    }
    let little = head.little;
    let at = put_ordered32(little, out, 0, magic_of(head.nano));
    let at = put_ordered16(little, out, at, MAJOR);
    let at = put_ordered16(little, out, at, MINOR);
    let at = put_ordered32(little, out, at, head.zone);
    let at = put_ordered32(little, out, at, head.figs);
    let at = put_ordered32(little, out, at, head.snap);
    Ok(put_ordered32(little, out, at, LINK_RAW))
}

/// Writes a record to the front of `out`, and answers how many bytes it took.
#[inline(always)]
pub fn write_rec(head: &Head, rec: &Rec, out: &mut [u8]) -> Result<usize, Room>
    requires { length rec.now.bytes.now ≤ KEPT_MAX }
    /// See `write_head`: `written`.
    ensures written { Writes (record_bytes head.now.little (captured rec.now)) out.old out.new result }
    // It stands at the front.
    /// See `write_head`: `written`.
    ensures spelled { IfOk result (λ n. StandsAt head.now.little (captured rec.now) 0 n (take n out.new)) }
    // What was written reads back.
    /// See `write_head`: `again`.
    ensures again { IfOk result (λ n. next_record head.now.little 0 (take n out.new) ≡ Ok (Some (captured rec.now, n))) }
{
    let needed = REC_HEAD + rec.bytes.len();
    if out.len() < needed {
        return Err(Room { needed });
    }
    let little = head.little;
    let at = put_ordered32(little, out, 0, rec.sec);
    let at = put_ordered32(little, out, at, rec.frac);
    let at = put_ordered32(little, out, at, rec.bytes.len() as u32);
    let at = put_ordered32(little, out, at, rec.orig);
    Ok(put(out, at, rec.bytes))
}
