//! Refusals of an outward datagram.
/// Why an outward datagram was not sent.
#[derive(Clone, Copy, Debug, PartialEq, Eq)]
pub enum NatRefusal {
    /// It goes to the NAT's own external address: no datagram turns round inside a NAT (own).
    Hairpin,
    /// Every port that the NAT gives is held by a live mapping.
    Full,
    NoMemory,
}
