//! Bytes, texts and decimal digits that are written at a place of a buffer. Each call returns where it ended.
ghost use Rattle.std.specs.Prelude.{◌≡◌, ◌+◌, ◌/◌, ◌%◌, ◌<◌, ◌≤◌, ◌∷◌, [], ◌++◌, length, take, decimal};

use crate::numeral::NUMBER_LEN;
use itoa::Buffer;

/// The two digits of each number below 100.
static PAIRS: [u8; 200] = *b"\
    0001020304050607080910111213141516171819202122232425262728293031323334353637383940414243444546474849\
    5051525354555657585960616263646566676869707172737475767778798081828384858687888990919293949596979899";

/// Writes a byte, and returns where it ends.
#[inline(always)]
pub(crate) fn write_byte(out: &mut [u8], at: usize, byte: u8) -> usize
    requires { at < length out.old }
    ensures text { take result out.new ≡ take at out.old ++ byte ∷ [] }
    ensures end { result ≡ at + 1 }
{
    out[at] = byte;
    at + 1
}

/// Writes a text, and returns where it ends.
pub(crate) fn write_text(out: &mut [u8], at: usize, text: &[u8]) -> usize
    requires { at + length text.now ≤ length out.old }
    ensures text { take result out.new ≡ take at out.old ++ text.now }
    ensures end { result ≡ at + length text.now }
{
    let end = at + text.len();
    out[at..end].copy_from_slice(text);
    end
}

/// Writes the two digits of a number below 100, of which the first may be a zero.
#[inline(always)]
fn write_pair(out: &mut [u8], at: usize, pair: u32) -> usize
    requires { (pair < 100) × (at + 2 ≤ length out.old) }
    ensures text { take result out.new ≡ take at out.old ++ (48 + pair / 10) ∷ (48 + pair % 10) ∷ [] }
    ensures end { result ≡ at + 2 }
{
    let from = pair as usize * 2;
    let (tens, ones) = (PAIRS[from], PAIRS[from + 1]);
    let at = write_byte(out, at, tens);
    write_byte(out, at, ones)
}

/// Writes a number below 100.
#[inline(always)]
fn write_two(out: &mut [u8], at: usize, number: u32) -> usize
    requires { (number < 100) × (at + 2 ≤ length out.old) }
    ensures text { take result out.new ≡ take at out.old ++ decimal number }
    ensures end { result ≤ at + 2 }
{
    if number < 10 {
        return write_byte(out, at, b'0' + number as u8);
    }
    write_pair(out, at, number)
}

/// Writes a number below 10,000.
#[inline(always)]
pub(crate) fn write_four(out: &mut [u8], at: usize, number: u32) -> usize
    requires { (number < 10000) × (at + 4 ≤ length out.old) }
    ensures text { take result out.new ≡ take at out.old ++ decimal number }
    ensures end { result ≤ at + 4 }
{
    if number < 100 {
        return write_two(out, at, number);
    }
    let at = write_two(out, at, number / 100);
    write_pair(out, at, number % 100)
}

/// Writes a number below 100,000,000.
#[inline(always)]
pub(crate) fn write_eight(out: &mut [u8], at: usize, number: u32) -> usize
    requires { (number < 100000000) × (at + 8 ≤ length out.old) }
    ensures text { take result out.new ≡ take at out.old ++ decimal number }
    ensures end { result ≤ at + 8 }
{
    if number < 10_000 {
        return write_four(out, at, number);
    }
    let low = number % 10_000;
    let at = write_four(out, at, number / 10_000);
    let at = write_pair(out, at, low / 100);
    write_pair(out, at, low % 100)
}

/// Writes a number. One of more than eight digits is made apart.
pub(crate) fn write_number(out: &mut [u8], at: usize, number: u64) -> usize
    requires { at + NUMBER_LEN ≤ length out.old }
    ensures text { take result out.new ≡ take at out.old ++ decimal number }
    ensures end { result ≤ at + NUMBER_LEN }
{
    if number < 100_000_000 {
        return write_eight(out, at, number as u32);
    }
    let mut digits = Buffer::new();
    write_text(out, at, digits.format(number).as_bytes())
}
