//! What a packet carries that is held.
use loads::Load;
use td_base::Ep;

/// A packet that is held: where it came from, and what it carries.
#[derive(Clone, Copy, Debug)]
pub struct HeldLoad {
    pub from: Ep,
    pub load: Option<Load>,
}
