//! A host of the IPv6 Internet in a topology.
use crate::node_name::Name;
use td_base::Ip6;

/// A host of the IPv6 Internet: its name, its address, and the number of the relay that it reaches Teredo hosts through.
#[derive(Clone, Copy, Debug)]
pub struct NativeNode {
    pub name: Name,
    pub six: Ip6,
    pub relay: u16,
}
