//! The length of short texts.

/// How many bytes the text of an address or an endpoint has at most. An IPv6 address has 39, an endpoint 21.
pub const SHORT_LEN: usize = 40;
