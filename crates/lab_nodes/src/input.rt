//! What comes to a node.
use td_base::Ep;

/// What comes to a node.
#[derive(Clone, Copy, Debug)]
pub enum Input<'a> {
    /// A datagram, to one of its endpoints.
    Arrived { src: Ep, dst: Ep, bytes: &'a [u8] },
    /// A packet of its host.
    Given { bytes: &'a [u8] },
    /// A packet of the IPv6 side.
    FromSix { bytes: &'a [u8] },
    /// The moment at which something is due.
    Ticked,
}
