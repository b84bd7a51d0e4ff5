//! A part of some bytes.

/// A part of some bytes: `len` of them from the place `at`.
#[derive(Clone, Copy, Debug, PartialEq, Eq)]
pub struct Span {
    pub at: usize,
    pub len: usize,
}
