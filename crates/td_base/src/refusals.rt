//! Why a call of this crate, or of one above it, refuses.
ghost use Rattle.std.specs.Prelude.{◌≡◌, ◌+◌, ◌≤◌, length};

use std::alloc::{AllocError, AllocFailed};
use std::error::Error;
use std::fmt;

/// A buffer is too small: `needed` is how many bytes would stand in it in all.
#[derive(Clone, Copy, Debug, PartialEq, Eq)]
pub struct Room {
    pub needed: usize,
}

impl fmt::Display for Room {
    fn fmt<W: fmt::Write>(&self, f: &mut fmt::Formatter<W>) -> fmt::Result {
        write!(f, "{} bytes don't fit", self.needed)
    }
}

impl Error for Room {}

/// A text isn't what was to be read: its first `place` bytes begin such a text, and no more of them do.
#[derive(Clone, Copy, Debug, PartialEq, Eq)]
pub struct BadText {
    pub place: usize,
}

impl BadText {
    /// The refusal of a text that can't be read where so many of its bytes are left.
    pub(crate) fn before(text: &[u8], left: usize) -> BadText
        requires { left ≤ length text.now }
        ensures { result.place + left ≡ length text.now }
    {
        BadText {
            place: text.len() - left,
        }
    }
}

impl fmt::Display for BadText {
    fn fmt<W: fmt::Write>(&self, f: &mut fmt::Formatter<W>) -> fmt::Result {
        write!(f, "the text is wrong at {}", self.place)
    }
}

impl Error for BadText {}

/// Memory ran out.
#[derive(Clone, Copy, Debug, PartialEq, Eq)]
pub struct NoMemory;

impl fmt::Display for NoMemory {
    fn fmt<W: fmt::Write>(&self, f: &mut fmt::Formatter<W>) -> fmt::Result {
        f.write_str("out of memory")
    }
}

impl Error for NoMemory {}

impl From<AllocError> for NoMemory {
    fn from(_: AllocError) -> Self {
        NoMemory
    }
}

impl<T: Drop> From<AllocFailed<T>> for NoMemory {
    fn from(_: AllocFailed<T>) -> Self {
        NoMemory
    }
}
