//! The ports that a NAT gives.
/// The lowest external port that a NAT gives (own: those below are the system ports of RFC 6335, section 6).
pub const FIRST_PORT: u16 = 1024;

/// How many mappings of a NAT live at most (own: it bounds what a NAT keeps).
pub const MAPPINGS_MAX: usize = 4096;
