//! The numbers of RFC 4443 and RFC 4861.

/// The next header before an ICMPv6 message: RFC 4443, section 1.
pub const ICMPV6: u8 = 58;

/// The type of an echo request: RFC 4443, section 4.1.
pub const ECHO_REQUEST: u8 = 128;

/// The type of an echo reply: RFC 4443, section 4.2.
pub const ECHO_REPLY: u8 = 129;

/// The type of a Router Solicitation: RFC 4861, section 4.1.
pub const ROUTER_SOLICIT: u8 = 133;

/// The type of a Router Advertisement: RFC 4861, section 4.2.
pub const ROUTER_ADVERT: u8 = 134;

/// The hop limit of a router's message, which no router on the way has lowered: RFC 4861, section 6.1.
pub const ROUTER_HOP: u8 = 255;

/// Bytes of type, code and checksum.
pub const HEAD_LEN: usize = 4;

/// Bytes of an echo before its data.
pub const ECHO_LEN: usize = 8;

/// Bytes of a solicitation before its options.
pub const SOLICIT_LEN: usize = 8;

/// Bytes of an advertisement before its options.
pub const ADVERT_LEN: usize = 16;

/// Bytes of an option's head: its type and its length.
pub const OPTION_HEAD_LEN: usize = 2;

/// Bytes that a unit of an option's length stands for: RFC 4861, section 4.6.
pub const OPTION_UNIT: usize = 8;

/// The type of a Prefix Information: RFC 4861, section 4.6.2.
pub const PREFIX_INFORMATION: u8 = 3;

/// Units that a Prefix Information has.
pub const PREFIX_UNITS: u8 = 4;

/// The type of an MTU option: RFC 4861, section 4.6.4.
pub const MTU_OPTION: u8 = 5;

/// Units that an MTU option has.
pub const MTU_UNITS: u8 = 1;

/// The most bytes of a message that is written: a packet of 1,400 bytes, as a datagram holds, without its header.
pub const MESSAGE_MAX: usize = 1360;
