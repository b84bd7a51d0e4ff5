//! A packet that is held until its source is trusted.
use td_base::{Ep, Octets};

/// A packet, and the endpoint that it came from. No call hands one out: contracts speak of it.
#[derive(Drop)]
pub struct Held {
    pub from: Ep,
    pub packet: Octets,
}
