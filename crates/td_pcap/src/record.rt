//! A record of a capture.

/// The bytes of a record before the packet's.
pub const REC_HEAD: usize = 16;

/// The most bytes that a record keeps, which is the most that an IPv4 packet has: RFC 791, section 3.1.
pub const KEPT_MAX: usize = 65_535;

/// A packet that went by, whose kept bytes are lent: the whole seconds of its moment and the rest in the head's
/// fractions, and how many bytes it had on the wire.
#[derive(Clone, Copy, Debug)]
pub struct Rec<'a> {
    pub sec: u32,
    pub frac: u32,
    pub orig: u32,
    pub bytes: &'a [u8],
}
