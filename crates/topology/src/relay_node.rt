//! A relay of a topology.
use crate::node_name::Name;
use td_base::{Ep, Ip6};

/// A relay: its name, its endpoint and its IPv6 address.
#[derive(Clone, Copy, Debug)]
pub struct RelayNode {
    pub name: Name,
    pub at: Ep,
    pub six: Ip6,
}
