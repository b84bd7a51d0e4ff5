//! Numbers in the order of bytes that a head shows.
ghost use Rattle.std.specs.Prelude.{◌≡◌, ◌+◌, ◌≤◌, length};
ghost use Rattle.td_base.specs.Bytes.{IsPut};
ghost use Rattle.td_pcap.specs.Orders.{ordered_number, ordered_bytes};

use byteorder::{ByteOrder, LittleEndian};
use td_base::{field16, field32, put, put16, put32};

/// The 16-bit number at a place.
#[inline(always)]
pub(crate) fn ordered16(little: bool, bytes: &[u8], at: usize) -> u16
    requires { at + 2 ≤ length bytes.now }
    ensures { result ≡ ordered_number little at 2 bytes.now }
{
    if !little {
        return field16(bytes, at);
    }
    LittleEndian::read_u16(&bytes[at..])
}

/// The 32-bit number at a place.
#[inline(always)]
pub(crate) fn ordered32(little: bool, bytes: &[u8], at: usize) -> u32
    requires { at + 4 ≤ length bytes.now }
    ensures { result ≡ ordered_number little at 4 bytes.now }
{
    if !little {
        return field32(bytes, at);
    }
    LittleEndian::read_u32(&bytes[at..])
}

/// Puts a 16-bit number at a place, and answers the place after it.
#[inline(always)]
pub(crate) fn put_ordered16(little: bool, out: &mut [u8], at: usize, n: u16) -> usize
    requires { at + 2 ≤ length out.old }
    ensures put { IsPut at (ordered_bytes little 2 n) out.old out.new }
    ensures after { result ≡ at + 2 }
{
    if !little {
        return put16(out, at, n);
    }
    let mut bytes = [0; 2];
    LittleEndian::write_u16(&mut bytes, n);
    put(out, at, &bytes)
}

/// Puts a 32-bit number, likewise.
#[inline(always)]
pub(crate) fn put_ordered32(little: bool, out: &mut [u8], at: usize, n: u32) -> usize
    requires { at + 4 ≤ length out.old }
    ensures put { IsPut at (ordered_bytes little 4 n) out.old out.new }
    ensures after { result ≡ at + 4 }
{
    if !little {
        return put32(out, at, n);
    }
    let mut bytes = [0; 4];
    LittleEndian::write_u32(&mut bytes, n);
    put(out, at, &bytes)
}
