//! An outward datagram.
use crate::kind::NatKind;
use td_base::{Ep, Millis};

/// An outward datagram that was sent, with the external port that it left from.
#[derive(Clone, Copy, Debug)]
pub struct Outward {
    pub moment: Millis,
    pub inside: Ep,
    pub dst: Ep,
    pub port: u16,
}

impl Outward {
    ghost use Rattle.std.specs.Prelude.{◌≡◌};
    ghost use Rattle.nat_kinds.specs.History.{is_young};
    ghost use Rattle.nat_kinds.specs.Mappings.{has_key};

    /// Whether it is less than `idle` milliseconds old.
    pub(crate) fn is_young(&self, idle: u32, now: Millis) -> bool
        ensures { result ≡ is_young idle now.0 self.now }
    {
        now.0.saturating_sub(self.moment.0) < u64::from(idle)
    }

    /// Whether a datagram from `inside` to `dst` shares its mapping.
    pub(crate) fn has_key(&self, kind: NatKind, inside: Ep, dst: Ep) -> bool
        ensures { result ≡ has_key kind inside dst self.now }
    {
        match kind {
            NatKind::Cone | NatKind::Restricted | NatKind::Port => self.inside == inside,
            NatKind::Symmetric => self.inside == inside && self.dst == dst,
        }
    }
}
