//! The limit of a datagram.

/// The most bytes of a datagram's payload: the MTU of RFC 4380, section 5.1.2, and room for indications.
pub const DATAGRAM_MAX: usize = 1400;
