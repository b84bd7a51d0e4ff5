//! A NAT of a topology.
use crate::node_name::Name;
use nat_kinds::NatKind;
use td_base::Ip4;

/// How long a mapping of a scenario's NAT lives at most after its latest outward datagram, in milliseconds.
pub const IDLE_MAX_MS: u32 = 10_000_000;

/// A NAT: its name, its kind, its address outside, and how long a mapping lives, in milliseconds.
#[derive(Clone, Copy, Debug)]
pub struct NatNode {
    pub name: Name,
    pub kind: NatKind,
    pub external: Ip4,
    pub idle: u32,
}
