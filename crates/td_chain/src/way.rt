//! How a datagram comes in.
use td_base::Ep;

/// Where a datagram that comes in at a NAT ends.
#[derive(Clone, Copy, Debug)]
pub enum Way {
    /// Behind the last NAT that it passed, at this endpoint.
    In { nat: u16, inside: Ep },
    /// At the NAT that lets nothing in.
    Closed { nat: u16 },
}
