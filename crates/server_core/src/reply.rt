//! What the server answers.
use td_base::{Ep, Side, Span};
use teredo_node::Fate;

/// What the server does with a datagram.
#[derive(Clone, Copy, Debug, PartialEq, Eq)]
pub enum Answer {
    /// Nothing.
    Drop {
        fate: Fate,
    },
    /// The first `len` bytes of the buffer go from port 3544 of the server's address to `to`.
    Send {
        fate: Fate,
        side: Side,
        to: Ep,
        len: usize,
    },
    /// This part of the datagram is a packet for the IPv6 Internet.
    Six {
        span: Span,
    },
}
