//! The head of a capture, and its numbers.

/// The bytes of a head.
pub const HEAD: usize = 24;

/// The magic of a capture whose fractions are microseconds.
pub const MAGIC_MICRO: u32 = 0xa1b2_c3d4;

/// The magic of a capture whose fractions are nanoseconds.
pub const MAGIC_NANO: u32 = 0xa1b2_3c4d;

/// `MAGIC_MICRO` as its bytes read in network order where the lowest stands first.
pub const MAGIC_MICRO_LITTLE: u32 = 0xd4c3_b2a1;

/// `MAGIC_NANO`, likewise.
pub const MAGIC_NANO_LITTLE: u32 = 0x4d3c_b2a1;

/// The version's first number.
pub const MAJOR: u16 = 2;

/// The version's second number.
pub const MINOR: u16 = 4;

/// The link type of raw IP: a record's bytes begin with an IPv4 or IPv6 header.
pub const LINK_RAW: u32 = 101;

/// The head of a capture: whether its numbers stand lowest byte first, whether fractions of a second are nanoseconds,
/// the zone's difference from UTC in seconds, the accuracy of moments (0 in practice), and the most bytes that are kept
/// of a packet. The version and the link type are always the same.
#[derive(Clone, Copy, Debug, PartialEq, Eq)]
pub struct Head {
    pub little: bool,
    pub nano: bool,
    pub zone: u32,
    pub figs: u32,
    pub snap: u32,
}
