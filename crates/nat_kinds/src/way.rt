//! What a NAT finds mappings and permissions by.
ghost use Rattle.std.specs.Prelude.{◌≡◌};
ghost use Rattle.nat_kinds.specs.Way.{endpoint_number, key_way, asked_way};

use crate::kind::NatKind;
use std::hash::{Hash, Hasher};
use td_base::{Ep, field32};

/// An inside endpoint, and another endpoint.
#[derive(Clone, Copy, Debug)]
pub struct Way {
    pub inside: Ep,
    pub other: Ep,
}

impl PartialEq for Way {
    ghost use Rattle.std.specs.Cmp.{partial_equiv_from_equiv};
    ghost use Rattle.nat_kinds.specs.Way.{same_way, same_way_equiv};

    ghost eq = { same_way };

    ghost laws = { partial_equiv_from_equiv same_way_equiv };

    #[inline(always)]
    #[tactic(auto, unfolding(crate::specs::Way::same_way))]
    fn eq(&self, other: &Way) -> bool {
        self.inside == other.inside && self.other == other.other
    }
}

impl Eq for Way {
    ghost use Rattle.nat_kinds.specs.Way.{same_way_equiv};

    ghost laws = { same_way_equiv };
}

impl Hash for Way {
    ghost use Rattle.nat_kinds.specs.Way.{fed_way, same_fed};

    ghost hash_input = { fed_way };

    ghost respects_eq = { same_fed };

    #[inline(always)]
    fn hash<H: Hasher>(&self, state: &mut H) {
        state.write_u64(number(self.inside));
        state.write_u64(number(self.other));
    }
}

/// An endpoint as one number.
#[inline(always)]
#[tactic(auto, unfolding(crate::specs::Way::endpoint_number))]
fn number(ep: Ep) -> u64
    ensures { result ≡ endpoint_number ep }
{
    u64::from(field32(&ep.ip.0, 0)) * 65536 + u64::from(ep.port)
}

/// The key of a datagram from `inside` to `dst`: RFC 3489, section 5.
pub fn key_of(kind: NatKind, inside: Ep, dst: Ep) -> Way
    ensures { result ≡ key_way kind inside dst }
{
    match kind {
        NatKind::Cone | NatKind::Restricted | NatKind::Port => Way {
            inside,
            other: inside,
        },
        NatKind::Symmetric => Way { inside, other: dst },
    }
}

/// What `inside` asked with a datagram to `dst`, as far as the kind looks.
pub fn asked_of(kind: NatKind, inside: Ep, dst: Ep) -> Way
    ensures { result ≡ asked_way kind inside dst }
{
    match kind {
        NatKind::Restricted => Way {
            inside,
            other: Ep {
                ip: dst.ip,
                port: 0,
            },
        },
        NatKind::Cone | NatKind::Port | NatKind::Symmetric => Way { inside, other: dst },
    }
}
