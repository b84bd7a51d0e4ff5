//! Numbers and bytes at a place of some bytes.
ghost use Rattle.std.specs.Prelude.{◌≡◌, ◌+◌, ◌≤◌, ◌∷◌, [], length, take, drop};
ghost use Rattle.td_base.specs.Bytes.{number_at, IsPut};
ghost use Rattle.byteorder.specs.Endian.{big_bytes};

use crate::ipv4::Ip4;
use crate::ipv6::Ip6;
use byteorder::{BigEndian, ByteOrder};

/// The 16-bit number at a place.
#[inline(always)]
pub fn field16(bytes: &[u8], at: usize) -> u16
    requires { at + 2 ≤ length bytes.now }
    /// Fields and addresses are read, and fields written, in network order, and the bytes beside them stay.
    /// Needs: the field lies in the bytes.
    ensures { result ≡ number_at at 2 bytes.now }
{
    BigEndian::read_u16(&bytes[at..])
}

/// The 32-bit number at a place.
#[inline(always)]
pub fn field32(bytes: &[u8], at: usize) -> u32
    requires { at + 4 ≤ length bytes.now }
    /// See `field16`.
    ensures { result ≡ number_at at 4 bytes.now }
{
    BigEndian::read_u32(&bytes[at..])
}

/// The 64-bit number at a place.
#[inline(always)]
pub fn field64(bytes: &[u8], at: usize) -> u64
    requires { at + 8 ≤ length bytes.now }
    /// See `field16`.
    ensures { result ≡ number_at at 8 bytes.now }
{
    BigEndian::read_u64(&bytes[at..])
}

/// The IPv4 address at a place.
#[inline(always)]
pub fn ip4_at(bytes: &[u8], at: usize) -> Ip4
    requires { at + 4 ≤ length bytes.now }
    /// See `field16`.
    ensures { result.0 ≡ take 4 (drop at bytes.now) }
{
    Ip4(*bytes[at..].first_chunk::<4>().unwrap())
}

/// The IPv6 address at a place, moved as one: a copy byte by byte was measured to be slow.
#[inline(always)]
pub fn ip6_at(bytes: &[u8], at: usize) -> Ip6
    requires { at + 16 ≤ length bytes.now }
    /// See `field16`.
    ensures { result.0 ≡ take 16 (drop at bytes.now) }
{
    Ip6(*bytes[at..].first_chunk::<16>().unwrap())
}

/// Puts bytes at a place, and answers the place after them.
#[inline(always)]
pub fn put(out: &mut [u8], at: usize, bytes: &[u8]) -> usize
    requires { at + length bytes.now ≤ length out.old }
    /// See `field16`.
    ensures put { IsPut at bytes.now out.old out.new }
    /// See `field16`.
    ensures after { result ≡ at + length bytes.now }
{
    out[at..at + bytes.len()].copy_from_slice(bytes);
    at + bytes.len()
}

/// Puts one byte, likewise.
#[inline(always)]
pub fn put8(out: &mut [u8], at: usize, n: u8) -> usize
    requires { at + 1 ≤ length out.old }
    /// See `field16`.
    ensures put { IsPut at (n ∷ []) out.old out.new }
    /// See `field16`.
    ensures after { result ≡ at + 1 }
{
    put(out, at, &[n])
}

/// Puts a 16-bit number, likewise.
#[inline(always)]
pub fn put16(out: &mut [u8], at: usize, n: u16) -> usize
    requires { at + 2 ≤ length out.old }
    /// See `field16`.
    ensures put { IsPut at (big_bytes 2 n) out.old out.new }
    /// See `field16`.
    ensures after { result ≡ at + 2 }
{
    let mut bytes = [0; 2];
    BigEndian::write_u16(&mut bytes, n);
    put(out, at, &bytes)
}

/// Puts a 32-bit number, likewise.
#[inline(always)]
pub fn put32(out: &mut [u8], at: usize, n: u32) -> usize
    requires { at + 4 ≤ length out.old }
    /// See `field16`.
    ensures put { IsPut at (big_bytes 4 n) out.old out.new }
    /// See `field16`.
    ensures after { result ≡ at + 4 }
{
    let mut bytes = [0; 4];
    BigEndian::write_u32(&mut bytes, n);
    put(out, at, &bytes)
}

/// Puts a 64-bit number, likewise.
#[inline(always)]
pub fn put64(out: &mut [u8], at: usize, n: u64) -> usize
    requires { at + 8 ≤ length out.old }
    /// See `field16`.
    ensures put { IsPut at (big_bytes 8 n) out.old out.new }
    /// See `field16`.
    ensures after { result ≡ at + 8 }
{
    let mut bytes = [0; 8];
    BigEndian::write_u64(&mut bytes, n);
    put(out, at, &bytes)
}
