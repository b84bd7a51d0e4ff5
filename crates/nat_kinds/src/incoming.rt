//! A datagram that comes to a NAT from outside.
use td_base::{Ep, Millis};

/// A datagram that is to come in: when, where from, and to which external port.
#[derive(Clone, Copy, Debug)]
pub struct Incoming {
    pub moment: Millis,
    pub src: Ep,
    pub port: u16,
}
