//! Moments and lengths of time.

/// A moment, or a length of time, in milliseconds.
#[derive(Clone, Copy, Debug, PartialEq, Eq, PartialOrd, Ord)]
pub struct Millis(pub u64);

/// Each moment of a clock is below this one, in milliseconds: 2^48, which is 8,900 years.
pub const CLOCK_END_MS: u64 = 1 << 48;
