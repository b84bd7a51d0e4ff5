//! A datagram that would be sent.
use td_base::{Ep, Millis};

/// A datagram that would be sent from an endpoint behind a NAT: when, and where to.
#[derive(Clone, Copy, Debug)]
pub struct Sending {
    pub now: Millis,
    /// The number of the NAT that the sender is behind.
    pub nat: u16,
    pub inside: Ep,
    pub dst: Ep,
}
