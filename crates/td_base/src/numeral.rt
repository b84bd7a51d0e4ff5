//! The text of a number: its decimal digits, without sign and without leading zeros.
ghost use Rattle.std.specs.Prelude.{◌≡◌, ℕ, ◌+◌, ◌*◌, ◌-◌, ◌<◌, ◌≤◌, List, [], ◌∷◌, ◌++◌, ◌⊎◌, length, IfOk, IfErr, IfSome, IfNone, SomeIff, decimal};
ghost use Rattle.std.specs.Result.{result_ok};
ghost use Rattle.td_base.specs.Prints.{Prints};
ghost use Rattle.td_base.specs.Texts.{IsNumberText, IsLongestBegin};
ghost use Rattle.td_base.specs.Values.{number_of};
ghost use Rattle.td_base.specs.Fronts.{so_far, NoneGoesOn, Halts, HaltsThen};

use crate::digits::write_number;
use crate::line::{LineBuf, print_text};
use crate::refusals::{BadText, Room};

/// How many digits a number of 64 bits has at most.
pub const NUMBER_LEN: usize = 20;

/// Appends a number's decimal digits.
pub fn print_number(number: u64, out: &mut LineBuf) -> Result<(), Room>
    /// A printing call appends the value's text, or refuses exactly where more than 1,024 bytes would stand in the
    /// line, which then stays. It is stated in `Prints.antt`, with the texts in `Texts.antt` and `Ip6Texts.antt`.
    ensures text { Prints result out.old out.new (decimal number) }
    /// See `LineBuf::new`.
    ensures short { length (decimal number) ≤ NUMBER_LEN }
{
    if out.has_room() {
        out.push_number(number);
        return Ok(());
    }
    print_number_apart(number, out)
}

/// Appends a number's decimal digits, which are made apart, since the line may be too full for them.
#[cold]
#[inline(never)]
fn print_number_apart(number: u64, out: &mut LineBuf) -> Result<(), Room>
    ensures text { Prints result out.old out.new (decimal number) }
    ensures short { length (decimal number) ≤ NUMBER_LEN }
{
    let mut digits = [0; NUMBER_LEN];
    let end = write_number(&mut digits, 0, number);
    print_text(&digits[..end], out)
}

/// The value of a decimal digit.
fn digit(byte: u8) -> Option<u64>
    ensures { SomeIff result ((48 ≤ byte) × (byte ≤ 57)) (byte - 48) }
{
    match byte {
        b'0'..=b'9' => Some(u64::from(byte - b'0')),
        _ => None,
    }
}

/// The number with one more digit, where some number up to `most` has these digits.
fn with_digit(number: Option<u64>, byte: u8, most: u64) -> Option<u64>
    requires { IfSome number (λ n. n ≤ most) }
    ensures some { IfSome result (λ n. (n ≤ most) × (decimal n ≡ so_far number ++ byte ∷ [])) }
    ensures none { IfNone result (NoneGoesOn most (so_far number) byte) }
{
    let digit = digit(byte)?;
    let Some(number) = number else {
        return if digit <= most { Some(digit) } else { None };
    };
    if number == 0 {
        return None;
    }
    let grown = u128::from(number) * 10 + u128::from(digit);
    if grown <= u128::from(most) {
        Some(grown as u64)
    } else {
        None
    }
}

/// The number at the front of a text, up to `most`, and what follows it.
fn front_number(text: &[u8], most: u64) -> (Option<u64>, &[u8])
    ensures small { IfSome result.0 (λ n. n ≤ most) }
    ensures parts { text.now ≡ so_far result.0 ++ result.1.now }
    ensures stops { (byte : ℕ) (after : List ℕ) → result.1.now ≡ byte ∷ after → NoneGoesOn most (so_far result.0) byte }
{
    let mut number = None;
    let mut rest = text;
    while let [byte, after @ ..] = rest {
        match with_digit(number, *byte, most) {
            Some(more) => number = Some(more),
            None => return (number, rest),
        }
        rest = after;
    }
    (number, rest)
}

/// A number up to `most` and the byte `end` at the front of a text, and what follows them. The error
/// is how many bytes were left where no such text goes on.
pub(crate) fn number_then(text: &[u8], most: u64, end: u8) -> Result<(u64, &[u8]), usize>
    requires { end < 48 ⊎ 57 < end }
    ensures found { IfOk result (λ read. (read.0 ≤ most) × (text.now ≡ decimal read.0 ++ end ∷ read.1.now)) }
    ensures halts { IfErr result (HaltsThen most end text.now) }
{
    let (number, rest) = front_number(text, most);
    let Some(number) = number else {
        return Err(rest.len());
    };
    let [byte, after @ ..] = rest else {
        return Err(rest.len());
    };
    if *byte != end {
        return Err(rest.len());
    }
    Ok((number, after))
}

/// A number up to `most`, which is the whole text. The error is as above.
pub(crate) fn number_last(text: &[u8], most: u64) -> Result<u64, usize>
    ensures found { IfOk result (λ number. (number ≤ most) × (text.now ≡ decimal number)) }
    ensures halts { IfErr result (Halts (IsNumberText most) text.now) }
{
    let (number, rest) = front_number(text, most);
    let Some(number) = number else {
        return Err(rest.len());
    };
    if !rest.is_empty() {
        return Err(rest.len());
    }
    Ok(number)
}

/// Reads a text that is a number up to `most`.
pub fn read_number(text: &[u8], most: u64) -> Result<u64, BadText>
    /// A number up to a bound, an IPv4 address or an endpoint that is read is one whose text is the whole text.
    ensures found { IfOk result (λ number. (number ≤ most) × (text.now ≡ decimal number)) }
    /// The text of a value reads as that value, so every text that is printed reads back.
    ensures only { (number : ℕ) → number ≤ most → text.now ≡ decimal number → result ≡ Ok number }
    /// A text is refused with its place: the length of the longest beginning that an accepted text has too.
    ensures place { IfErr result (λ bad. IsLongestBegin (IsNumberText most) text.now bad.place) }
    /// What is read is a stated function of the text, and made as its type asks. An address has 4 or 16 bytes of 8
    /// bits, a port 16 bits.
    ensures exact { result_ok result ≡ number_of most text.now }
{
    match number_last(text, most) {
        Ok(number) => Ok(number),
        Err(left) => Err(BadText::before(text, left)),
    }
}
