//! What a datagram carries, a packet that waits or one that is held.

/// A packet that a host handed in, or the echo reply that a native host makes of it.
#[derive(Clone, Copy, Debug, PartialEq, Eq)]
pub enum Load {
    /// The packet of that number.
    Packet(u32),
    /// The reply to it.
    ReplyTo(u32),
}
