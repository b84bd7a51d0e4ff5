//! A page of text that is being made.
ghost use Rattle.std.specs.Prelude.{◌≡◌, ◌+◌, ◌*◌, ◌≤◌, ◌++◌, [], length};
ghost use Rattle.hex.specs.Hex.{encode_lower};

use std::marker::Model;

/// How many bytes a page holds at most.
pub const PAGE_LEN: usize = 8192;

/// A text of at most `PAGE_LEN` bytes, in a buffer of its own.
#[derive(Drop)]
pub struct Page {
    bytes: [u8; PAGE_LEN],
    len: usize,
}

impl Model for Page {
    ghost use Rattle.std.specs.Prelude.{ℕ, ◌≤◌, List, take};
    ghost use Rattle.show.specs.declared.page.TheConstants.{PAGE_LEN};

    ghost Value = { List ℕ };

    ghost view = { λ page. take page.len page.bytes };

    ghost invariant = { λ page. page.len ≤ PAGE_LEN };
}

impl Page {
    pub fn new() -> Page
        /// A page holds the bytes that were put there, at most 8,192.
        /// Needs: room for what is put there.
        ensures { result ≡ [] }
    {
        Page {
            bytes: [0; PAGE_LEN],
            len: 0,
        }
    }

    pub fn as_slice(&self) -> &[u8]
        /// See `Page::new`.
        ensures value { result.now ≡ self.now }
        /// See `Page::new`.
        ensures short { length result.now ≤ PAGE_LEN }
    {
        &self.bytes[..self.len]
    }

    /// Empties the page.
    pub fn clear(&mut self)
        /// See `Page::new`.
        ensures { self.new ≡ [] }
    {
        self.len = 0;
    }

    /// Appends a text for which there is room.
    pub fn push_text(&mut self, text: &[u8])
        requires { length self.old + length text.now ≤ PAGE_LEN }
        /// See `Page::new`.
        ensures text { self.new ≡ self.old ++ text.now }
        /// See `Page::new`.
        ensures long { length self.new ≡ length self.old + length text.now }
    {
        let end = self.len + text.len();
        self.bytes[self.len..end].copy_from_slice(text);
        self.len = end;
    }

    /// Appends bytes as two lower-case hexadecimal digits each.
    pub fn push_digits(&mut self, bytes: &[u8])
        requires { length self.old + 2 * length bytes.now ≤ PAGE_LEN }
        /// See `Page::new`.
        ensures text { self.new ≡ self.old ++ encode_lower bytes.now }
        /// See `Page::new`.
        ensures long { length self.new ≡ length self.old + 2 * length bytes.now }
    {
        let end = self.len + 2 * bytes.len();
        if hex::encode_to_slice(bytes, &mut self.bytes[self.len..end]).is_err() {
            unreachable!();
        }
        self.len = end;
    }
}
