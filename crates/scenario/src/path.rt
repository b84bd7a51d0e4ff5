//! The path of a key in a text.
ghost use Rattle.std.specs.Prelude.{◌≡◌, ◌+◌, ◌-◌, ◌≤◌, ◌++◌, ◌∷◌, [], length, decimal, map, take};
ghost use Rattle.scenario.specs.Paths.{shown_byte, shown};

use itoa::Buffer;
use std::fmt;
use std::marker::Model;

/// How many bytes a path has at most.
pub const PATH_LEN: usize = 48;

/// How many bytes of a key a path shows at most.
pub const KEY_SHOWN: usize = 32;

/// How many digits the number of a table has at most.
pub(crate) const INDEX_DIGITS: usize = 5;

/// A path, as `seed` or `client[0].nat`: a text of at most `PATH_LEN` visible characters of ASCII.
#[derive(Debug, Drop)]
pub struct Path {
    bytes: [u8; PATH_LEN],
    len: usize,
}

impl Model for Path {
    ghost use Rattle.std.specs.Prelude.{ℕ, ◌≤◌, List, take};
    ghost use Rattle.scenario.specs.declared.path.TheConstants.{PATH_LEN};

    ghost Value = { List ℕ };

    ghost view = { λ path. take path.len path.bytes };

    ghost invariant = { λ path. path.len ≤ PATH_LEN };
}

impl Path {
    pub(crate) fn new() -> Path
        ensures { result ≡ [] }
    {
        Path {
            bytes: [0; PATH_LEN],
            len: 0,
        }
    }

    /// Its text.
    pub fn as_slice(&self) -> &[u8]
        /// See `put_refusal_line`.
        ensures value { result.now ≡ self.now }
        /// See `put_refusal_line`.
        ensures short { length result.now ≤ PATH_LEN }
    {
        &self.bytes[..self.len]
    }

    /// Appends a byte.
    fn push(&mut self, byte: u8)
        requires { length self.old + 1 ≤ PATH_LEN }
        ensures byte { self.new ≡ self.old ++ byte ∷ [] }
        ensures longer { length self.new ≡ length self.old + 1 }
    {
        self.bytes[self.len] = byte;
        self.len += 1;
    }

    /// Appends a text.
    pub(crate) fn push_text(&mut self, text: &[u8])
        requires { length self.old + length text.now ≤ PATH_LEN }
        ensures text { self.new ≡ self.old ++ text.now }
        ensures longer { length self.new ≡ length self.old + length text.now }
    {
        let end = self.len + text.len();
        self.bytes[self.len..end].copy_from_slice(text);
        self.len = end;
    }

    /// Appends a number's decimal digits.
    pub(crate) fn push_number(&mut self, number: u16)
        requires { length self.old + INDEX_DIGITS ≤ PATH_LEN }
        ensures digits { self.new ≡ self.old ++ decimal number }
        ensures longer { length self.new ≤ length self.old + INDEX_DIGITS }
    {
        let mut digits = Buffer::new();
        self.push_text(digits.format(number).as_bytes());
    }

    /// Appends bytes as a path shows them.
    fn push_shown(&mut self, bytes: &[u8])
        requires { length self.old + length bytes.now ≤ PATH_LEN }
        ensures { self.new ≡ self.old ++ map shown_byte bytes.now }
    {
        for byte in bytes {
            self.push(shown_byte(*byte));
        }
    }

    /// Appends a key: its first bytes.
    pub(crate) fn push_key(&mut self, key: &[u8])
        requires { length self.old + KEY_SHOWN ≤ PATH_LEN }
        ensures { self.new ≡ self.old ++ shown key.now }
    {
        self.push_shown(front(key));
    }
}

/// The first bytes of a key, as many as a path shows.
fn front(key: &[u8]) -> &[u8]
    ensures value { result.now ≡ take KEY_SHOWN key.now }
    ensures short { length result.now ≤ KEY_SHOWN }
{
    if key.len() <= KEY_SHOWN {
        return key;
    }
    &key[..KEY_SHOWN]
}

/// A byte as a path shows it: `?` for what is no visible character of ASCII.
fn shown_byte(byte: u8) -> u8
    ensures { result ≡ shown_byte byte }
{
    if byte.is_ascii_graphic() { byte } else { b'?' }
}

impl fmt::Display for Path {
    fn fmt<W: fmt::Write>(&self, f: &mut fmt::Formatter<W>) -> fmt::Result {
        for byte in self.as_slice() {
            f.write_char(char::from(*byte))?;
        }
        Ok(())
    }
}
