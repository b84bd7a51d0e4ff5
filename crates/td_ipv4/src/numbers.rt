//! The numbers of RFC 791 and RFC 768.

/// The version that stands in the first four bits: RFC 791, section 3.1.
pub const IPV4: u8 = 4;

/// The bytes of a word, in which the header's length is told: RFC 791, section 3.1.
pub const WORD: usize = 4;

/// The header's bytes without options.
pub const HEAD_MIN: usize = 20;

/// The most bytes of options: a header has 15 words at most.
pub const OPTIONS_MAX: usize = 40;

/// The most bytes of a datagram, as its length has 16 bits.
pub const TOTAL_MAX: usize = 65_535;

/// The bits of a fragment: more are to come, and where it belongs in units of 8 bytes: RFC 791, section 3.1.
pub const FRAGMENT_BITS: u16 = 0x3fff;

/// The protocol of UDP: RFC 768.
pub const UDP: u8 = 17;

/// The bytes of UDP's header: RFC 768.
pub const UDP_HEAD: usize = 8;

/// The time to live of a datagram that is made here: RFC 1700.
pub const TTL: u8 = 64;

/// The sum that says that none was made, so that a sum of 0 is written as its other spelling: RFC 768.
pub const NO_SUM: u16 = 0;
