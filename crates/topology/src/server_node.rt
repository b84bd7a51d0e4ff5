//! A server of a topology.
use crate::node_name::Name;
use td_base::Ip4;

/// A server: its name and its two addresses.
#[derive(Clone, Copy, Debug)]
pub struct ServerNode {
    pub name: Name,
    pub primary: Ip4,
    pub secondary: Ip4,
}
