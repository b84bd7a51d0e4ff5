//! What a packet carries that waits or is held.
use loads::Load;
use td_base::{Ep, Ip6};

/// A packet that waits for a peer, or is held of it.
#[derive(Clone, Copy, Debug)]
pub struct KeptLoad {
    pub who: Ip6,
    /// Where the packet came from, if it is held; one that waits has none.
    pub from: Option<Ep>,
    pub load: Option<Load>,
}
