//! An authentication, an origin, and what stands in front.
use td_base::{Ep, Span};

/// The bytes of an authentication before its identifier: two of its kind, and the lengths of identifier and value.
pub const AUTH_HEAD: usize = 4;

/// The bytes of a nonce.
pub const NONCE: usize = 8;

/// The bytes of an authentication behind its value: the nonce, and the confirmation.
pub const AUTH_TAIL: usize = 9;

/// The bytes of an authentication with empty identifier and value.
pub const AUTH: usize = 13;

/// The bytes of an origin: two of its kind, a hidden port and a hidden address.
pub const ORIGIN: usize = 8;

/// An authentication. The spans are those of its identifier and its value in the datagram. They stand last, so that the
/// gap behind the byte lies where a fault has a number in a `Result`, and is moved with the byte as one. A gap at the end
/// is moved through memory by itself, which was measured to be slow.
#[derive(Clone, Copy, Debug, PartialEq, Eq)]
pub struct Auth {
    pub nonce: u64,
    pub confirmation: u8,
    pub id: Span,
    pub value: Span,
}

/// An origin, in clear: where the datagram that is passed on came from.
#[derive(Clone, Copy, Debug, PartialEq, Eq)]
pub struct Origin {
    pub ep: Ep,
}

/// What stands in front of the packet, and the place where the packet begins.
#[derive(Clone, Copy, Debug, PartialEq, Eq)]
pub struct Lead {
    pub auth: Option<Auth>,
    pub origin: Option<Origin>,
    pub at: usize,
}
