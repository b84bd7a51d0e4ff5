//! Captures out of bytes.
ghost use Rattle.std.specs.Prelude.{◌≡◌, ◌+◌, ◌≤◌, ◌<◌, ◌++◌, ◌↔◌, List, ℕ, length, drop, IfOk, IfErr, IfSome, Ok, Some, None};
ghost use Rattle.td_base.specs.Results.{Gives};
ghost use Rattle.td_pcap.specs.declared.head.Head.{Head};
ghost use Rattle.td_pcap.specs.Heads.{IsHead, BeginsWithHead, head_bytes, IsHeadFault, form_shown, head_behind, head_of, file_head};
ghost use Rattle.td_pcap.specs.Records.{Captured, captured, IsCaptured, StandsAt, record_bytes, IsRecordFault, captured_at, kept_said, next_record, step_view};

use crate::fault::CapFault;
use crate::head::{
    HEAD, Head, LINK_RAW, MAGIC_MICRO, MAGIC_MICRO_LITTLE, MAGIC_NANO, MAGIC_NANO_LITTLE, MAJOR,
    MINOR,
};
use crate::order::{ordered16, ordered32};
use crate::record::{KEPT_MAX, REC_HEAD, Rec};
use td_base::field32;

/// The head at the front of a capture.
#[inline(always)]
pub fn read_head(bytes: &[u8]) -> Result<Head, CapFault>
    /// The head that is read is the one that the bytes begin with, in either order of bytes, with microseconds or
    /// nanoseconds. The classic form of libpcap's files, version 2.4, link type 101.
    ensures found { IfOk result (λ h. BeginsWithHead h bytes.now) }
    // What stands there is read.
    /// See `found`.
    ensures only { (h : Head) → BeginsWithHead h bytes.now → result ≡ Ok h }
    /// Bytes that begin with no head are refused by the first fault: cut, magic, version, link type.
    ensures fault { IfErr result (λ e. IsHeadFault e bytes.now) }
    // Behind it the records begin.
    /// See `fault`.
    ensures inside { IfOk result (λ h. HEAD ≤ length bytes.now) }
    // The same as one function of the bytes.
    /// See `fault`.
    ensures exact { result ≡ file_head bytes.now }
{
    head_in(bytes)
}

#[inline(always)]
#[tactic(auto, unfolding(crate::specs::Heads::file_head))]
fn head_in(bytes: &[u8]) -> Result<Head, CapFault>
    ensures long { IfOk result (λ h. HEAD ≤ length bytes.now) }
    ensures exact { result ≡ file_head bytes.now }
{
    if bytes.len() < HEAD {
        return Err(CapFault::Cut { at: 0 });
    }
    let said = field32(bytes, 0);
    let Some((little, nano)) = form_shown(said) else {
        return Err(CapFault::Magic { said });
    };
    head_behind(little, nano, bytes)
}

/// The order of bytes and the unit of fractions that a magic shows: whether the lowest byte is first, and whether the
/// unit is a nanosecond.
#[inline(always)]
#[tactic(auto, unfolding(crate::specs::Heads::form_shown))]
fn form_shown(said: u32) -> Option<(bool, bool)>
    ensures { result ≡ form_shown said }
{
    if said == MAGIC_MICRO {
        return Some((false, false));
    }
    if said == MAGIC_NANO {
        return Some((false, true));
    }
    if said == MAGIC_MICRO_LITTLE {
        return Some((true, false));
    }
    if said == MAGIC_NANO_LITTLE {
        return Some((true, true));
    }
    None
}

#[inline(always)]
#[tactic(auto, unfolding(crate::specs::Heads::head_behind, crate::specs::Heads::head_of))]
fn head_behind(little: bool, nano: bool, bytes: &[u8]) -> Result<Head, CapFault>
    requires { HEAD ≤ length bytes.now }
    ensures { result ≡ head_behind little nano bytes.now }
{
    let major = ordered16(little, bytes, 4);
    let minor = ordered16(little, bytes, 6);
    if major != MAJOR {
        return Err(CapFault::Version { major, minor });
    }
    if minor != MINOR {
        return Err(CapFault::Version { major, minor });
    }
    let said = ordered32(little, bytes, 20);
    if said != LINK_RAW {
        return Err(CapFault::Link { said });
    }
    Ok(Head {
        little,
        nano,
        zone: ordered32(little, bytes, 8),
        figs: ordered32(little, bytes, 12),
        snap: ordered32(little, bytes, 16),
    })
}

/// The record at a place of a capture with this head, and the place behind it; nothing at the end. The first place is
/// `HEAD`, and each further one what this call gave.
#[inline(always)]
pub fn next<'a>(
    head: &Head,
    bytes: &'a [u8],
    at: usize,
) -> Result<Option<(Rec<'a>, usize)>, CapFault>
    requires { at ≤ length bytes.now }
    /// The record that is read is the one that stands there, and where it ends is told; there is none exactly at the
    /// end.
    /// Needs: a place in the bytes.
    /// Leaves open: what a packet is.
    ensures found { IfOk result (λ step. IfSome step (λ s. StandsAt head.now.little (captured s.0) at s.1 bytes.now)) }
    // What stands there is read.
    /// See `found`.
    ensures only { (r : Captured) (end : ℕ) → StandsAt head.now.little r at end bytes.now → Gives step_view result (Ok (Some (r, end))) }
    // Nothing is left at the end, and only there.
    /// See `found`.
    ensures end { (result ≡ Ok None) ↔ (at ≡ length bytes.now) }
    /// Where no record stands, the first fault is told with its place: cut, or longer than 65,535 bytes.
    /// Needs: a place in the bytes.
    ensures fault { IfErr result (λ e. IsRecordFault head.now.little at e bytes.now) }
    // The place goes on, and stays within the bytes.
    /// See `found`.
    ensures further { IfOk result (λ step. IfSome step (λ s. (at < s.1) × (s.1 ≤ length bytes.now))) }
    // The same as one function of the bytes.
    /// See `fault`.
    ensures exact { Gives step_view result (next_record head.now.little at bytes.now) }
{
    record_at(head.little, bytes, at)
}

#[inline(always)]
#[tactic(auto, unfolding(crate::specs::Records::next_record, crate::specs::Records::captured_at))]
fn record_at(little: bool, bytes: &[u8], at: usize) -> Result<Option<(Rec<'_>, usize)>, CapFault>
    requires { at ≤ length bytes.now }
    ensures further { IfOk result (λ step. IfSome step (λ s. (at < s.1) × (s.1 ≤ length bytes.now))) }
    ensures exact { Gives step_view result (next_record little at bytes.now) }
{
    let left = bytes.len() - at;
    if left == 0 {
        return Ok(None);
    }
    if left < REC_HEAD {
        return Err(CapFault::Cut { at });
    }
    let said = ordered32(little, bytes, at + 8);
    let kept = said as usize;
    if kept > KEPT_MAX {
        return Err(CapFault::Big { at, said });
    }
    if left - REC_HEAD < kept {
        return Err(CapFault::Cut { at });
    }
    let (record, end) = record_of(little, bytes, at, kept);
    Ok(Some((record, end)))
}

/// The record at a place, which has so many bytes, and the place behind it.
#[inline(always)]
#[tactic(auto, unfolding(crate::specs::Records::captured_at))]
fn record_of(little: bool, bytes: &[u8], at: usize, kept: usize) -> (Rec<'_>, usize)
    requires { at + REC_HEAD + kept ≤ length bytes.now }
    ensures record { captured result.0 ≡ captured_at little at kept bytes.now }
    ensures end { result.1 ≡ at + REC_HEAD + kept }
{
    let from = at + REC_HEAD;
    let end = from + kept;
    let record = Rec {
        sec: ordered32(little, bytes, at),
        frac: ordered32(little, bytes, at + 4),
        orig: ordered32(little, bytes, at + 12),
        bytes: &bytes[from..end],
    };
    (record, end)
}
