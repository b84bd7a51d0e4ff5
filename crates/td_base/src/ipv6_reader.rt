//! How a text is read as an IPv6 address.
ghost use Rattle.std.specs.Prelude.{◌≡◌, ℕ, ◌+◌, ◌*◌, ◌-◌, ◌^◌, ◌<◌, ◌≤◌, List, [], ◌∷◌, ◌++◌, ◌⊎◌, length, take, drop};
ghost use Rattle.std.specs.Prelude.{replicate, MatchBool, IfOk, IfErr, OnOk, SomeIff};
ghost use Rattle.std.specs.Result.{result_ok};
ghost use Rattle.std.specs.Char.{digit_value};
ghost use Rattle.std.specs.Str.Parse.{AllDigits, digits_value};
ghost use Rattle.td_base.specs.Fronts.{Halts};
ghost use Rattle.td_base.specs.Ip6Fronts.{Accepts, GroupThen, AfterTail, Tail, Elided, AfterHead, Whole, NoHex, IsFrontGroup};
ghost use Rattle.td_base.specs.Texts.{IsLongestBegin};
ghost use Rattle.td_base.specs.Ip6.{IsIp6};
ghost use Rattle.td_base.specs.Ip6Texts.{Spells, IsIp6Text};
ghost use Rattle.td_base.specs.Ip6Values.{ip6_of};
ghost use Rattle.td_base.specs.declared.ipv6.Ip6.{Ip6};

use crate::ipv6::Ip6;
use crate::ipv6_groups::{GROUPS, Groups};
use crate::ipv6_text::GROUP_DIGITS;
use crate::refusals::BadText;

/// The value of a hexadecimal digit.
fn hex_digit(byte: u8) -> Option<u16>
    ensures { SomeIff result (digit_value byte < 16) (digit_value byte) }
{
    match byte {
        b'0'..=b'9' => Some(u16::from(byte - b'0')),
        b'a'..=b'f' => Some(u16::from(byte - b'a') + 10),
        b'A'..=b'F' => Some(u16::from(byte - b'A') + 10),
        _ => None,
    }
}

/// The number of the digits at the front of a text, at most four of them, and how many there are.
fn front_group(text: &[u8]) -> (u16, usize)
    ensures short { result.1 ≤ GROUP_DIGITS }
    ensures within { result.1 ≤ length text.now }
    ensures digits { AllDigits 16 (take result.1 text.now) }
    ensures value { digits_value 16 (take result.1 text.now) ≡ result.0 }
    ensures stops { (result.1 ≡ GROUP_DIGITS) ⊎ ((byte : ℕ) (after : List ℕ) → drop result.1 text.now ≡ byte ∷ after → 16 ≤ digit_value byte) }
{
    let mut number = 0;
    for i in 0..GROUP_DIGITS {
        if i == text.len() {
            return (number, i);
        }
        match hex_digit(text[i]) {
            Some(digit) => number = number * 16 + digit,
            None => return (number, i),
        }
    }
    (number, GROUP_DIGITS)
}

/// A group at the front of a text, and what follows it. The error is how many bytes there were.
fn group(text: &[u8]) -> Result<(u16, &[u8]), usize>
    ensures found { IfOk result (λ read. IsFrontGroup text.now read.0 read.1.now) }
    ensures none { IfErr result (λ left. (left ≡ length text.now) × NoHex text.now) }
{
    let (number, len) = front_group(text);
    if len == 0 {
        return Err(text.len());
    }
    Ok((number, &text[len..]))
}

/// What follows a group behind `::`, with at most `most` groups. The error is how many bytes were left
/// where no such text goes on.
fn after_tail(text: &[u8], most: usize, out: &mut Groups) -> Result<(), usize>
    requires { length out.old + most ≤ GROUPS }
    ensures found { OnOk result ((more : List ℕ) × AfterTail most text.now more × (out.new ≡ out.old ++ more)) }
    ensures short { OnOk result (length out.new ≤ length out.old + most) }
    ensures halts { IfErr result (Halts (Accepts (AfterTail most)) text.now) }
{
    let [byte, rest @ ..] = text else {
        return Ok(());
    };
    if most == 0 {
        return Err(text.len());
    }
    if *byte != b':' {
        return Err(text.len());
    }
    let (number, rest) = group(rest)?;
    out.push(number);
    after_tail(rest, most - 1, out)
}

/// What follows `::`, with at most `most` groups. The error is as above.
fn tail_groups(text: &[u8], most: usize, out: &mut Groups) -> Result<(), usize>
    requires { length out.old + most ≤ GROUPS }
    ensures found { OnOk result ((more : List ℕ) × Tail most text.now more × (out.new ≡ out.old ++ more)) }
    ensures short { OnOk result (length out.new ≤ length out.old + most) }
    ensures halts { IfErr result (Halts (Accepts (Tail most)) text.now) }
{
    if text.is_empty() {
        return Ok(());
    }
    if most == 0 {
        return Err(text.len());
    }
    let (number, rest) = group(text)?;
    out.push(number);
    after_tail(rest, most - 1, out)
}

/// What follows `::`, with at most `most` groups, as one number more than that, the first ones being 0.
fn elided(text: &[u8], most: usize, out: &mut Groups) -> Result<(), usize>
    requires { length out.old + most < GROUPS }
    ensures found { OnOk result ((tail : List ℕ) × Tail most text.now tail
        × (out.new ≡ out.old ++ (replicate (most + 1 - length tail) 0 ++ tail))) }
    ensures halts { IfErr result (Halts (Accepts (Tail most)) text.now) }
{
    let mut tail = Groups::new();
    tail_groups(text, most, &mut tail)?;
    let tail = tail.as_slice();
    out.push_zeros(most + 1 - tail.len());
    out.push_all(tail);
    Ok(())
}

/// Whether a text begins with a colon.
fn begins_with_colon(text: &[u8]) -> bool
    ensures { MatchBool result ((after : List ℕ) × (text.now ≡ 58 ∷ after)) ((after : List ℕ) → text.now ≡ 58 ∷ after → ⊥) }
{
    let [byte, ..] = text else {
        return false;
    };
    *byte == b':'
}

/// What follows the first colon of `::`: the second, and at most `most` groups. The error is as above.
fn second_colon(text: &[u8], most: usize, out: &mut Groups) -> Result<(), usize>
    requires { length out.old + most < GROUPS }
    ensures found { OnOk result ((more : List ℕ) × Elided most text.now more × (out.new ≡ out.old ++ more)) }
    ensures halts { IfErr result (Halts (Accepts (Elided most)) text.now) }
{
    if begins_with_colon(text) {
        return elided(&text[1..], most, out);
    }
    Err(text.len())
}

/// What follows a group before any `::`, where so many groups are missing. The error is as above.
fn after_head(text: &[u8], missing: usize, out: &mut Groups) -> Result<(), usize>
    requires { length out.old + missing ≤ GROUPS }
    ensures found { OnOk result ((more : List ℕ) × AfterHead missing text.now more × (out.new ≡ out.old ++ more)) }
    ensures halts { IfErr result (Halts (Accepts (AfterHead missing)) text.now) }
{
    let [byte, rest @ ..] = text else {
        return if missing == 0 { Ok(()) } else { Err(0) };
    };
    if missing == 0 {
        return Err(text.len());
    }
    if *byte != b':' {
        return Err(text.len());
    }
    if begins_with_colon(rest) {
        return elided(&rest[1..], missing - 1, out);
    }
    let (number, rest) = group(rest)?;
    out.push(number);
    after_head(rest, missing - 1, out)
}

/// The groups of a whole address. The error is as above.
fn whole_groups(text: &[u8], out: &mut Groups) -> Result<(), usize>
    requires { out.old ≡ [] }
    ensures found { OnOk result (Whole text.now out.new) }
    ensures halts { IfErr result (Halts (Accepts Whole) text.now) }
{
    if begins_with_colon(text) {
        return second_colon(&text[1..], GROUPS - 1, out);
    }
    let (number, rest) = group(text)?;
    out.push(number);
    after_head(rest, GROUPS - 1, out)
}

/// An address that is the whole text. The error is as above.
fn whole_ip6(text: &[u8]) -> Result<Ip6, usize>
    ensures found { IfOk result (λ ip. IsIp6 ip × Spells ip text.now) }
    ensures halts { IfErr result (Halts IsIp6Text text.now) }
{
    let mut groups = Groups::new();
    whole_groups(text, &mut groups)?;
    Ok(groups.address())
}

/// Reads a text that is an IPv6 address: eight groups of one to four hexadecimal digits of either
/// case, or fewer with one `::` in place of one or more zero groups (RFC 4291, section 2.2, forms 1
/// and 2). The form with a dotted tail isn't read.
pub fn read_ip6(text: &[u8]) -> Result<Ip6, BadText>
    /// An IPv6 address that is read is one that the whole text spells, and each spelling of an address reads as it.
    /// Leaves open: the form with a dotted tail: it isn't read.
    ensures found { IfOk result (λ ip. IsIp6 ip × Spells ip text.now) }
    // Each text of an address is read as that address.
    /// See `found`.
    ensures only { (ip : Ip6) → IsIp6 ip → Spells ip text.now → result ≡ Ok ip }
    // So many bytes begin the text of an address, and no more.
    /// See `read_number`: `place`.
    ensures place { IfErr result (λ bad. IsLongestBegin IsIp6Text text.now bad.place) }
    // The address that the text is, as one function of the bytes.
    /// See `read_number`: `exact`.
    ensures exact { result_ok result ≡ ip6_of text.now }
{
    match whole_ip6(text) {
        Ok(ip) => Ok(ip),
        Err(left) => Err(BadText::before(text, left)),
    }
}
