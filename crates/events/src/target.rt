//! Whom a packet of a host is for.
use td_base::Ip6;

/// Whom a host sends a packet to: a client or native host by its number, or an address.
#[derive(Clone, Copy, Debug, PartialEq, Eq)]
pub enum Target {
    Node(u16),
    At(Ip6),
}
