//! The text of an IPv4 address: four decimal numbers, joined by dots.
ghost use Rattle.std.specs.Prelude.{◌≡◌, ◌+◌, ◌≤◌, ◌∷◌, [], ◌++◌, length, take, decimal, IfOk, IfErr};
ghost use Rattle.std.specs.Result.{result_ok};
ghost use Rattle.td_base.specs.Prints.{Prints};
ghost use Rattle.td_base.specs.Ip4.{IsIp4};
ghost use Rattle.td_base.specs.Texts.{ip4_text, IsIp4Text, IsLongestBegin};
ghost use Rattle.td_base.specs.Values.{ip4_of};
ghost use Rattle.td_base.specs.Fronts.{Halts};
ghost use Rattle.td_base.specs.declared.ipv4.Ip4.{Ip4};

use crate::digits::{write_byte, write_four};
use crate::ipv4::Ip4;
use crate::line::{LineBuf, print_text};
use crate::numeral::{number_last, number_then};
use crate::refusals::{BadText, Room};
use crate::short_text::SHORT_LEN;

/// The largest of the four numbers.
pub(crate) const PART_MAX: u64 = u8::MAX as u64;

/// How many bytes are enough for one of the four numbers and a dot.
const PART_ROOM: usize = 5;

/// How many bytes are enough for an IPv4 address.
pub(crate) const IP4_ROOM: usize = 4 * PART_ROOM;

/// Writes one of the four numbers and a dot at a place, and returns where they end.
#[inline(always)]
fn write_dotted(out: &mut [u8], at: usize, part: u8) -> usize
    requires { at + PART_ROOM ≤ length out.old }
    ensures text { take result out.new ≡ take at out.old ++ (decimal part ++ 46 ∷ []) }
    ensures end { result ≤ at + PART_ROOM }
{
    let at = write_four(out, at, u32::from(part));
    write_byte(out, at, b'.')
}

/// Writes an IPv4 address at a place, and returns where it ends.
pub(crate) fn write_ip4(out: &mut [u8], at: usize, ip: Ip4) -> usize
    requires { at + IP4_ROOM ≤ length out.old }
    ensures text { take result out.new ≡ take at out.old ++ ip4_text ip }
    ensures end { result ≤ at + IP4_ROOM }
{
    let [a, b, c, d] = ip.0;
    let at = write_dotted(out, at, a);
    let at = write_dotted(out, at, b);
    let at = write_dotted(out, at, c);
    write_four(out, at, u32::from(d))
}

/// Appends an IPv4 address.
pub fn print_ip4(ip: Ip4, out: &mut LineBuf) -> Result<(), Room>
    /// See `print_number`: `text`.
    ensures text { Prints result out.old out.new (ip4_text ip) }
    /// See `LineBuf::new`.
    ensures short { length (ip4_text ip) ≤ SHORT_LEN }
{
    if out.has_room() {
        out.push_ip4(ip);
        return Ok(());
    }
    print_ip4_apart(ip, out)
}

/// Appends an IPv4 address, which is made apart, since the line may be too full for it.
#[cold]
#[inline(never)]
fn print_ip4_apart(ip: Ip4, out: &mut LineBuf) -> Result<(), Room>
    ensures text { Prints result out.old out.new (ip4_text ip) }
    ensures short { length (ip4_text ip) ≤ SHORT_LEN }
{
    let mut text = [0; SHORT_LEN];
    let end = write_ip4(&mut text, 0, ip);
    print_text(&text[..end], out)
}

/// Four numbers with dots between them, which are the whole text. The error is how many bytes were
/// left where no such text goes on.
fn whole_ip4(text: &[u8]) -> Result<Ip4, usize>
    ensures found { IfOk result (λ ip. IsIp4 ip × (text.now ≡ ip4_text ip)) }
    ensures halts { IfErr result (Halts IsIp4Text text.now) }
{
    let (a, rest) = number_then(text, PART_MAX, b'.')?;
    let (b, rest) = number_then(rest, PART_MAX, b'.')?;
    let (c, rest) = number_then(rest, PART_MAX, b'.')?;
    let d = number_last(rest, PART_MAX)?;
    Ok(Ip4([a as u8, b as u8, c as u8, d as u8]))
}

/// Reads a text that is an IPv4 address.
pub fn read_ip4(text: &[u8]) -> Result<Ip4, BadText>
    // The text is the address's.
    /// See `read_number`: `found`.
    ensures found { IfOk result (λ ip. IsIp4 ip × (text.now ≡ ip4_text ip)) }
    // The text of an address is read as that address.
    /// See `read_number`: `only`.
    ensures only { (ip : Ip4) → IsIp4 ip → text.now ≡ ip4_text ip → result ≡ Ok ip }
    // So many bytes begin the text of an address, and no more.
    /// See `read_number`: `place`.
    ensures place { IfErr result (λ bad. IsLongestBegin IsIp4Text text.now bad.place) }
    // The address that the text is, as one function of the bytes.
    /// See `read_number`: `exact`.
    ensures exact { result_ok result ≡ ip4_of text.now }
{
    match whole_ip4(text) {
        Ok(ip) => Ok(ip),
        Err(left) => Err(BadText::before(text, left)),
    }
}
