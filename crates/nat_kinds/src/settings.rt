//! The settings of a NAT.
use crate::kind::NatKind;
use td_base::Ip4;

/// What a NAT is set up with.
#[derive(Clone, Copy, Debug)]
pub struct NatSettings {
    pub kind: NatKind,
    pub external: Ip4,
    /// How long after its latest outward datagram a mapping lives, in milliseconds.
    pub idle: u32,
}
