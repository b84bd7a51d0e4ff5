//! The numbers of a host.
/// The hop limit of a host's packets: that of a host to which no router advertised another (RFC 4861, section 6.3.2).
pub const HOST_HOP: u8 = 64;

/// The header after the IPv6 header of a host's data: none that a node knows (own, of those for experiments: RFC 3692, section 2.1).
pub const HOST_DATA_NEXT: u8 = 253;

/// The identifier of a host's echo requests (own).
pub const HOST_ECHO_ID: u16 = 1;
