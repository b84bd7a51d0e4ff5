//! A UDP datagram over IPv4.
use td_base::Ep;

/// A UDP datagram over IPv4, its options and body lent by the bytes that it was read from. The endpoints are the addresses of
/// the one header and the ports of the other. `head_sum` and `udp_sum` are the checksums as they are found, right or not.
#[derive(Clone, Copy, Debug)]
pub struct Udp4<'a> {
    pub tos: u8,
    pub id: u16,
    pub frag: u16,
    pub ttl: u8,
    pub head_sum: u16,
    pub options: &'a [u8],
    pub src: Ep,
    pub dst: Ep,
    pub udp_sum: u16,
    pub body: &'a [u8],
}
