//! The text of an IPv6 address, as RFC 5952, section 4, has it.
ghost use Rattle.std.specs.Prelude.{◌≡◌, ◌+◌, ◌*◌, ◌<◌, ◌≤◌, ◌++◌, length, take, codes};
ghost use Rattle.std.specs.Char.{digit_char};
ghost use Rattle.std.specs.Net.Text as Text;
ghost use Rattle.td_base.specs.Prints.{Prints};
ghost use Rattle.td_base.specs.Ip6.{IsIp6};
ghost use Rattle.td_base.specs.Ip6Texts.{groups, ip6_text, Spells};

use crate::digits::{write_byte, write_text};
use crate::ipv6::Ip6;
use crate::ipv6_groups::groups_of;
use crate::line::{LineBuf, print_text};
use crate::refusals::Room;
use crate::short_text::SHORT_LEN;

/// How many digits a group has at most.
pub(crate) const GROUP_DIGITS: usize = 4;

/// How many bytes a group and a colon have at most.
const GROUP_ROOM: usize = GROUP_DIGITS + 1;

fn hex_char(d: u16) -> u8
    requires { d < 16 }
    ensures { result ≡ digit_char d }
{
    if d < 10 {
        b'0' + d as u8
    } else {
        b'a' + (d - 10) as u8
    }
}

fn leading_zero_digits(n: u16) -> usize
    ensures value { result ≡ Text.leading_zero_digits n }
    ensures within { result < 4 }
{
    match n {
        0x1000.. => 0,
        0x100.. => 1,
        0x10.. => 2,
        _ => 3,
    }
}

/// The start and the length of the longest run of zeros, the first one of that length.
fn longest_zero_run(groups: &[u16]) -> (usize, usize)
    ensures value { result ≡ Text.longest_zero_run groups.now }
    ensures within { result.0 + result.1 ≤ length groups.now }
{
    let mut start = groups.len();
    let mut len = 0;
    let mut run = 0;
    for i in (0..groups.len()).rev() {
        run = if groups[i] == 0 { run + 1 } else { 0 };
        if run >= len {
            start = i;
            len = run;
        }
    }
    (start, len)
}

/// Writes a group in hexadecimal at a place, and returns where it ends.
#[tactic(auto, unfolding(std::specs::Net::Text::hex))]
fn write_hex(out: &mut [u8], at: usize, n: u16) -> usize
    requires { at + GROUP_DIGITS ≤ length out.old }
    ensures text { take result out.new ≡ take at out.old ++ Text.hex n }
    ensures end { result ≤ at + GROUP_DIGITS }
{
    let digits = [
        hex_char(n / 0x1000),
        hex_char(n / 0x100 % 16),
        hex_char(n / 0x10 % 16),
        hex_char(n % 16),
    ];
    write_text(out, at, &digits[leading_zero_digits(n)..])
}

/// Writes groups with colons between them at a place, and returns where they end.
fn write_groups(out: &mut [u8], at: usize, groups: &[u16]) -> usize
    requires { at + GROUP_ROOM * length groups.now ≤ length out.old }
    ensures text { take result out.new ≡ take at out.old ++ Text.groups_text groups.now }
    ensures end { result ≤ at + GROUP_ROOM * length groups.now }
{
    let [first, rest @ ..] = groups else {
        return at;
    };
    let mut end = write_hex(out, at, *first);
    for group in rest {
        end = write_byte(out, end, b':');
        end = write_hex(out, end, *group);
    }
    end
}

/// Writes groups, `::` and groups at a place, and returns where they end.
fn write_elided(out: &mut [u8], at: usize, front: &[u16], back: &[u16]) -> usize
    requires { at + GROUP_ROOM * length front.now + GROUP_ROOM * length back.now + 2 ≤ length out.old }
    ensures text { take result out.new ≡ take at out.old ++ (Text.groups_text front.now ++ codes "::" ++ Text.groups_text back.now) }
    ensures end { result ≤ at + GROUP_ROOM * length front.now + GROUP_ROOM * length back.now + 2 }
{
    let at = write_groups(out, at, front);
    let at = write_byte(out, at, b':');
    let at = write_byte(out, at, b':');
    write_groups(out, at, back)
}

/// Writes an IPv6 address at a place, and returns where it ends.
#[tactic(auto, unfolding(std::specs::Net::Text::hex_groups_text))]
pub(crate) fn write_ip6(out: &mut [u8], at: usize, ip: Ip6) -> usize
    requires { at + SHORT_LEN ≤ length out.old }
    ensures text { take result out.new ≡ take at out.old ++ ip6_text ip }
    ensures end { result ≤ at + SHORT_LEN }
{
    let groups = groups_of(ip);
    let groups = &groups[..];
    let (start, len) = longest_zero_run(groups);
    if len > 1 {
        return write_elided(out, at, &groups[..start], &groups[start + len..]);
    }
    write_groups(out, at, groups)
}

/// Appends an IPv6 address.
#[tactic(auto, using(crate::proofs::Ip6Lemmas::printed_is_spelled))]
pub fn print_ip6(ip: Ip6, out: &mut LineBuf) -> Result<(), Room>
    /// See `print_number`: `text`.
    ensures text { Prints result out.old out.new (ip6_text ip) }
    /// See `LineBuf::new`.
    ensures short { length (ip6_text ip) ≤ SHORT_LEN }
    /// The text of an IPv6 address that is printed is one of its spellings, so that it reads back.
    ensures spelled { IsIp6 ip → Spells ip (ip6_text ip) }
{
    if out.has_room() {
        out.push_ip6(ip);
        return Ok(());
    }
    print_ip6_apart(ip, out)
}

/// Appends an IPv6 address, which is made apart, since the line may be too full for it.
#[cold]
#[inline(never)]
fn print_ip6_apart(ip: Ip6, out: &mut LineBuf) -> Result<(), Room>
    ensures text { Prints result out.old out.new (ip6_text ip) }
    ensures short { length (ip6_text ip) ≤ SHORT_LEN }
{
    let mut text = [0; SHORT_LEN];
    let end = write_ip6(&mut text, 0, ip);
    print_text(&text[..end], out)
}
