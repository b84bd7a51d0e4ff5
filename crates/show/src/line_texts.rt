//! The parts of a line.
ghost use Rattle.std.specs.Prelude.{◌≡◌, ◌+◌, ◌*◌, ◌≤◌, ◌++◌, length, decimal};
ghost use Rattle.td_base.specs.Texts.{ip4_text, ep_text};
ghost use Rattle.td_base.specs.Ip6Texts.{ip6_text};
ghost use Rattle.show.specs.Lines.{field, hex_text};

use crate::page::{PAGE_LEN, Page};
use itoa::Buffer;
use td_base::{Ep, Ip4, Ip6, LineBuf, NUMBER_LEN, SHORT_LEN, print_ep, print_ip4, print_ip6};

/// Room for a line that shows no bytes, in bytes.
pub const LINE_ROOM: usize = 200;

/// Appends a number's decimal digits.
pub fn put_number(number: usize, page: &mut Page)
    requires { length page.old + NUMBER_LEN ≤ PAGE_LEN }
    /// A number, an endpoint, a word with a number, and what is wrong with a payload are put behind what the page
    /// holds, for other lines too.
    /// Needs: room for them.
    ensures text { page.new ≡ page.old ++ decimal number }
    /// See `text`.
    ensures short { length page.new ≤ length page.old + NUMBER_LEN }
{
    let mut digits = Buffer::new();
    page.push_text(digits.format(number).as_bytes());
}

/// Appends a word and a number.
pub fn put_field(word: &[u8], number: usize, page: &mut Page)
    requires { length page.old + length word.now + NUMBER_LEN ≤ PAGE_LEN }
    /// See `put_number`: `text`.
    ensures text { page.new ≡ page.old ++ field word.now number }
    /// See `put_number`: `text`.
    ensures short { length page.new ≤ length page.old + length word.now + NUMBER_LEN }
{
    page.push_text(word);
    put_number(number, page);
}

/// Appends an IPv4 address.
pub(crate) fn put_ip4(ip: Ip4, page: &mut Page)
    requires { length page.old + SHORT_LEN ≤ PAGE_LEN }
    ensures text { page.new ≡ page.old ++ ip4_text ip }
    ensures short { length page.new ≤ length page.old + SHORT_LEN }
{
    let mut text = LineBuf::new();
    let _ = print_ip4(ip, &mut text);
    page.push_text(text.as_slice());
}

/// Appends an IPv6 address.
pub(crate) fn put_ip6(ip: Ip6, page: &mut Page)
    requires { length page.old + SHORT_LEN ≤ PAGE_LEN }
    ensures text { page.new ≡ page.old ++ ip6_text ip }
    ensures short { length page.new ≤ length page.old + SHORT_LEN }
{
    let mut text = LineBuf::new();
    let _ = print_ip6(ip, &mut text);
    page.push_text(text.as_slice());
}

/// Appends an endpoint.
pub fn put_ep(ep: Ep, page: &mut Page)
    requires { length page.old + SHORT_LEN ≤ PAGE_LEN }
    /// See `put_number`: `text`.
    ensures text { page.new ≡ page.old ++ ep_text ep }
    /// See `put_number`: `text`.
    ensures short { length page.new ≤ length page.old + SHORT_LEN }
{
    let mut text = LineBuf::new();
    let _ = print_ep(ep, &mut text);
    page.push_text(text.as_slice());
}

/// Appends bytes in hexadecimal, or `-` where there are none.
pub(crate) fn put_hex(bytes: &[u8], page: &mut Page)
    requires { length page.old + 2 * length bytes.now + 1 ≤ PAGE_LEN }
    ensures text { page.new ≡ page.old ++ hex_text bytes.now }
    ensures short { length page.new ≤ length page.old + 2 * length bytes.now + 1 }
{
    if bytes.is_empty() {
        return page.push_text(b"-");
    }
    page.push_digits(bytes);
}
