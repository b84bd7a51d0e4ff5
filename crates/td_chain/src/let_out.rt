//! What a NAT let out.
use nat_kinds::Outward;

/// What a NAT let out of a datagram, with the NAT's number.
#[derive(Clone, Copy, Debug)]
pub struct LetOut {
    pub nat: u16,
    pub datagram: Outward,
}
