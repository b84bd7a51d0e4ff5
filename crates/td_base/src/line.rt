//! A line of text that is being made.
ghost use Rattle.std.specs.Prelude.{◌≡◌, ◌+◌, ◌≤◌, ◌↔◌, ◌++◌, [], length, decimal, IsTrue};
ghost use Rattle.td_base.specs.Prints.{Prints};
ghost use Rattle.td_base.specs.Texts.{ip4_text, ep_text};
ghost use Rattle.td_base.specs.Ip6Texts.{ip6_text};

use crate::digits::write_number;
use crate::endpoint::Ep;
use crate::endpoint_text::write_ep;
use crate::ipv4::Ip4;
use crate::ipv4_text::write_ip4;
use crate::ipv6::Ip6;
use crate::ipv6_text::write_ip6;
use crate::numeral::NUMBER_LEN;
use crate::refusals::Room;
use crate::short_text::SHORT_LEN;
use std::marker::Model;

/// How many bytes a line holds at most.
pub const LINE_LEN: usize = 1024;

/// A line of at most `LINE_LEN` bytes, in a buffer of its own. A line that is used again by `clear` costs no new buffer.
#[derive(Drop)]
pub struct LineBuf {
    bytes: [u8; LINE_LEN],
    len: usize,
}

impl Model for LineBuf {
    ghost use Rattle.std.specs.Prelude.{ℕ, ◌≤◌, List, take};
    ghost use Rattle.td_base.specs.declared.line.TheConstants.{LINE_LEN};

    ghost Value = { List ℕ };

    ghost view = { λ line. take line.len line.bytes };

    ghost invariant = { λ line. line.len ≤ LINE_LEN };
}

impl LineBuf {
    pub fn new() -> LineBuf
        /// A line holds the bytes that were put there, at most 1,024; the text of an address or endpoint has at most 40
        /// of them, a number's 20.
        /// Needs: for `push_text`, room.
        ensures { result ≡ [] }
    {
        LineBuf {
            bytes: [0; LINE_LEN],
            len: 0,
        }
    }

    pub fn as_slice(&self) -> &[u8]
        /// See `LineBuf::new`.
        ensures value { result.now ≡ self.now }
        /// See `LineBuf::new`.
        ensures short { length result.now ≤ LINE_LEN }
    {
        &self.bytes[..self.len]
    }

    /// Empties the line.
    pub fn clear(&mut self)
        /// See `LineBuf::new`.
        ensures { self.new ≡ [] }
    {
        self.len = 0;
    }

    /// Appends a text for which there is room.
    pub fn push_text(&mut self, text: &[u8])
        requires { length self.old + length text.now ≤ LINE_LEN }
        /// See `LineBuf::new`.
        ensures { self.new ≡ self.old ++ text.now }
    {
        let end = self.len + text.len();
        self.bytes[self.len..end].copy_from_slice(text);
        self.len = end;
    }

    /// Whether there is room for any number, address or endpoint.
    pub(crate) fn has_room(&self) -> bool
        ensures { IsTrue result ↔ length self.now + SHORT_LEN ≤ LINE_LEN }
    {
        self.len <= LINE_LEN - SHORT_LEN
    }

    /// Appends a number's decimal digits, for which there is room.
    pub(crate) fn push_number(&mut self, number: u64)
        requires { length self.old + NUMBER_LEN ≤ LINE_LEN }
        ensures text { self.new ≡ self.old ++ decimal number }
        ensures short { length self.new ≤ length self.old + NUMBER_LEN }
    {
        self.len = write_number(&mut self.bytes, self.len, number);
    }

    /// Appends an IPv4 address, for which there is room.
    pub(crate) fn push_ip4(&mut self, ip: Ip4)
        requires { length self.old + SHORT_LEN ≤ LINE_LEN }
        ensures text { self.new ≡ self.old ++ ip4_text ip }
        ensures short { length self.new ≤ length self.old + SHORT_LEN }
    {
        self.len = write_ip4(&mut self.bytes, self.len, ip);
    }

    /// Appends an IPv6 address, for which there is room.
    pub(crate) fn push_ip6(&mut self, ip: Ip6)
        requires { length self.old + SHORT_LEN ≤ LINE_LEN }
        ensures text { self.new ≡ self.old ++ ip6_text ip }
        ensures short { length self.new ≤ length self.old + SHORT_LEN }
    {
        self.len = write_ip6(&mut self.bytes, self.len, ip);
    }

    /// Appends an endpoint, for which there is room.
    pub(crate) fn push_ep(&mut self, ep: Ep)
        requires { length self.old + SHORT_LEN ≤ LINE_LEN }
        ensures text { self.new ≡ self.old ++ ep_text ep }
        ensures short { length self.new ≤ length self.old + SHORT_LEN }
    {
        self.len = write_ep(&mut self.bytes, self.len, ep);
    }
}

/// Appends a text.
pub fn print_text(text: &[u8], out: &mut LineBuf) -> Result<(), Room>
    /// See `print_number`: `text`.
    ensures { Prints result out.old out.new text.now }
{
    if text.len() > LINE_LEN - out.len {
        return Err(Room {
            needed: out.len + text.len(),
        });
    }
    out.push_text(text);
    Ok(())
}
