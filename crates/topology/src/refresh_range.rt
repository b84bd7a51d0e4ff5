//! How long a client waits between two refreshes.

/// The shortest time between two refreshes of a client, in milliseconds.
pub const REFRESH_MIN_MS: u32 = 1_000;

/// The longest time between two refreshes of a client, in milliseconds.
pub const REFRESH_MAX_MS: u32 = 1_000_000;

/// The shortest time between two refreshes of a client for which none is given, in milliseconds: three quarters of the
/// longest one.
pub const REFRESH_LOW_MS: u32 = 22_500;

/// The longest time between two refreshes of a client for which none is given, in milliseconds: the 30 s of RFC 4380,
/// section 5.2.5.
pub const REFRESH_HIGH_MS: u32 = 30_000;

/// The shortest and the longest time between two refreshes of a client.
#[derive(Clone, Copy, Debug)]
pub struct RefreshRange {
    pub low_ms: u32,
    pub high_ms: u32,
}
