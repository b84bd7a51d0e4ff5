//! A datagram that is to pass a NAT outwards.
use td_base::{Ep, Millis};

/// A datagram that is to go out: when, from which inside endpoint, and where to.
#[derive(Clone, Copy, Debug)]
pub struct Departure {
    pub moment: Millis,
    pub inside: Ep,
    pub dst: Ep,
}
