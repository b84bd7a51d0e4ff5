//! The one's complement sum of bytes: RFC 1071.
ghost use Rattle.std.specs.Prelude.{◌≡◌, ℕ, ◌+◌, ◌*◌, ◌^◌, ◌%◌, ◌/◌, ◌≤◌, ◌<◌, List, [], ◌++◌, length, drop};
ghost use Rattle.td_base.specs.Sums.{halves_sum, folded, IsSummedOn, StandsForSum};

use byteorder::{ByteOrder, LittleEndian};

/// How many bytes a summand of the sum has.
const HALF: usize = 2;

const TWO_HALVES: usize = 4;

/// How many bytes are summed at a time.
const WORD: usize = 8;

const TWO_WORDS: usize = 16;

/// How many bytes a turn of the loop sums.
const FOUR_WORDS: usize = 32;

/// What a one's complement sum of 16 bits is but for a multiple of.
const MODULUS: u64 = u16::MAX as u64;

const TWO_64: u128 = 1 << 64;

/// What a one in the highest byte of 64 bits counts.
const HIGHEST_BYTE: u64 = 1 << 56;

/// How much more a byte counts than the one below it.
const BYTE: u64 = 1 << 8;

/// The most that a sum may be which goes on: a slice has fewer than 2^63 bytes, and no byte adds more
/// than 2^64, so that there is room for each slice.
pub const SUM_START_MAX: u128 = 1 << 127;

/// A number that is folded to 16 bits.
#[inline(always)]
fn fold(sum: u64) -> u16
    ensures { result ≡ folded sum }
{
    if sum == 0 {
        0
    } else {
        ((sum - 1) % MODULUS + 1) as u16
    }
}

/// The one's complement sum of 64 bits: a carry out of the top comes in at the bottom. So written it
/// takes two instructions; with a sum that wraps and is compared it was counted to take more.
#[inline(always)]
fn end_around(a: u64, b: u64) -> u64
    ensures { result ≡ (a + b) % 2 ^ 64 + (a + b) / 2 ^ 64 }
{
    let sum = u128::from(a) + u128::from(b);
    (sum % TWO_64) as u64 + (sum / TWO_64) as u64
}

/// A sum that is folded to 16 bits: once, where all is summed, since it takes a division.
#[inline(always)]
pub fn folded_sum(sum: u128) -> u16
    /// See `unfolded_sum`: `sum`.
    ensures { result ≡ folded sum }
{
    fold(end_around((sum / TWO_64) as u64, (sum % TWO_64) as u64))
}

/// A sum of low bytes first that goes on over a word.
#[inline(always)]
fn word(sum: u64, bytes: &[u8]) -> u64
    requires { WORD ≤ length bytes.now }
    ensures { IsSummedOn sum bytes.now result (drop WORD bytes.now) }
{
    end_around(sum, LittleEndian::read_u64(bytes))
}

/// A sum that goes on over two words.
#[inline(always)]
fn two_words(sum: u64, bytes: &[u8]) -> u64
    requires { TWO_WORDS ≤ length bytes.now }
    ensures { IsSummedOn sum bytes.now result (drop TWO_WORDS bytes.now) }
{
    word(word(sum, bytes), &bytes[WORD..])
}

/// A sum that goes on over four words.
#[inline(always)]
fn four_words(sum: u64, bytes: &[u8]) -> u64
    requires { FOUR_WORDS ≤ length bytes.now }
    ensures { IsSummedOn sum bytes.now result (drop FOUR_WORDS bytes.now) }
{
    two_words(two_words(sum, bytes), &bytes[TWO_WORDS..])
}

/// A sum that goes on over two words, where so many bytes are left, and what is left then.
#[inline(always)]
fn below_two_words(sum: u64, bytes: &[u8]) -> (u64, &[u8])
    requires { length bytes.now < FOUR_WORDS }
    ensures sum { IsSummedOn sum bytes.now result.0 result.1.now }
    ensures left { length result.1.now < TWO_WORDS }
{
    if bytes.len() < TWO_WORDS {
        return (sum, bytes);
    }
    (two_words(sum, bytes), &bytes[TWO_WORDS..])
}

/// The same over a word.
#[inline(always)]
fn below_word(sum: u64, bytes: &[u8]) -> (u64, &[u8])
    requires { length bytes.now < TWO_WORDS }
    ensures sum { IsSummedOn sum bytes.now result.0 result.1.now }
    ensures left { length result.1.now < WORD }
{
    if bytes.len() < WORD {
        return (sum, bytes);
    }
    (word(sum, bytes), &bytes[WORD..])
}

/// The same over two halves.
#[inline(always)]
fn below_two_halves(sum: u64, bytes: &[u8]) -> (u64, &[u8])
    requires { length bytes.now < WORD }
    ensures sum { IsSummedOn sum bytes.now result.0 result.1.now }
    ensures left { length result.1.now < TWO_HALVES }
{
    if bytes.len() < TWO_HALVES {
        return (sum, bytes);
    }
    let halves = u64::from(LittleEndian::read_u32(bytes));
    (end_around(sum, halves), &bytes[TWO_HALVES..])
}

/// The same over a half.
#[inline(always)]
fn below_half(sum: u64, bytes: &[u8]) -> (u64, &[u8])
    requires { length bytes.now < TWO_HALVES }
    ensures sum { IsSummedOn sum bytes.now result.0 result.1.now }
    ensures left { length result.1.now < HALF }
{
    if bytes.len() < HALF {
        return (sum, bytes);
    }
    let half = u64::from(LittleEndian::read_u16(bytes));
    (end_around(sum, half), &bytes[HALF..])
}

/// What is left behind whole halves: a last odd byte, which is the first of its half, or nothing.
#[inline(always)]
fn odd_half(sum: u64, bytes: &[u8]) -> u64
    requires { length bytes.now < HALF }
    ensures { IsSummedOn sum bytes.now result [] }
{
    if let [high] = bytes {
        end_around(sum, u64::from(*high))
    } else {
        sum
    }
}

/// The sum of the bytes as 16-bit numbers with the low byte first.
#[inline(always)]
fn low_first_sum(bytes: &[u8]) -> u64
    ensures { IsSummedOn 0 bytes.now result [] }
{
    let mut sum = 0;
    let mut rest = bytes;
    while rest.len() >= FOUR_WORDS {
        sum = four_words(sum, rest);
        rest = &rest[FOUR_WORDS..];
    }
    let (sum, rest) = below_two_words(sum, rest);
    let (sum, rest) = below_word(sum, rest);
    let (sum, rest) = below_two_halves(sum, rest);
    let (sum, rest) = below_half(sum, rest);
    odd_half(sum, rest)
}

/// A sum of low bytes first as one of high bytes first: turned by a byte, which is 256 times as much
/// but for what folding takes away.
#[inline(always)]
fn high_first(sum: u64) -> u64
    ensures { folded result ≡ folded (256 * sum) }
{
    sum % HIGHEST_BYTE * BYTE + sum / HIGHEST_BYTE
}

/// The sum of `start` and of the bytes as 16-bit numbers, a last odd byte being the high half, but for
/// what folding takes away. It adds eight bytes at a time, since a carry out of 16 bits counts as it
/// does in the fold at the end, and reads them with the low byte first, as most machines do at once,
/// since a sum in the other order of bytes is the sum in the other order (RFC 1071, section 2).
#[inline(always)]
pub fn unfolded_sum(bytes: &[u8], start: u128) -> u128
    requires { start ≤ SUM_START_MAX }
    /// A sum can also go on over further bytes before it is folded, and is folded once at the end. What isn't folded
    /// stands for the same sum, and a byte adds at most 2^64.
    /// Needs: a start of at most `SUM_START_MAX`; for `goes_on`, what `ones_sum` needs.
    ensures sum { folded result ≡ folded (start + halves_sum bytes.now) }
    // In steps: where start is the sum of a front, it is the sum of the front and the bytes.
    /// See `sum`.
    ensures goes_on { (front : List ℕ) → StandsForSum start front → folded result ≡ folded (halves_sum (front ++ bytes.now)) }
    /// See `sum`.
    ensures most { result ≤ start + 2 ^ 64 * length bytes.now }
{
    start + u128::from(high_first(low_first_sum(bytes)))
}

/// The folded one's complement sum of the bytes as 16-bit numbers, a last odd byte being the high
/// half, and of `start`: a front's sum, where the bytes go on.
pub fn ones_sum(bytes: &[u8], start: u32) -> u16
    /// The sum of a start and of bytes is the folded one's complement sum of it and of their 16-bit numbers; so a sum
    /// can be made in steps. The checksums of ICMPv6, IPv4 and UDP are made of it (RFC 1071).
    /// Needs: for `goes_on`, a first part of whole halves, whose sum the start stands for.
    ensures sum { result ≡ folded (start + halves_sum bytes.now) }
    // In steps: where start is the sum of a front, it is the sum of the front and the bytes.
    /// See `sum`.
    ensures goes_on { (front : List ℕ) → StandsForSum start front → result ≡ folded (halves_sum (front ++ bytes.now)) }
{
    folded_sum(unfolded_sum(bytes, u128::from(start)))
}
