//! An IPv4 address.
ghost use Rattle.std.specs.Prelude.{◌≡◌, length};
ghost use Rattle.td_base.specs.Bytes.{IsBytes, number_at};
ghost use Rattle.td_base.specs.Ip4.{same_ip};

use crate::fields::field32;
use std::cmp::Ordering;

/// An IPv4 address, its four bytes in network order.
#[derive(Clone, Copy, Debug)]
pub struct Ip4(pub [u8; 4]);

/// An address as a number.
#[inline(always)]
fn number(bytes: &[u8]) -> u32
    requires { length bytes.now ≡ 4 }
    ensures number { result ≡ number_at 0 4 bytes.now }
    ensures bytes { IsBytes bytes.now }
{
    field32(bytes, 0)
}

/// Whether two addresses are the same. As numbers, and by value: byte by byte, and from memory, was measured to be slow.
#[inline(always)]
fn same(a: Ip4, b: Ip4) -> bool
    ensures { result ≡ same_ip a b }
{
    number(&a.0) == number(&b.0)
}

/// - `PartialEq`: `==` on addresses and endpoints holds exactly of equal values. Addresses are ordered by their bytes,
///   endpoints by address and then by port.
impl PartialEq for Ip4 {
    ghost use Rattle.std.specs.Cmp.{partial_equiv_from_equiv};
    ghost use Rattle.td_base.specs.Ip4.{same_ip, same_ip_equiv};

    ghost eq = { same_ip };

    ghost laws = { partial_equiv_from_equiv same_ip_equiv };

    #[inline(always)]
    fn eq(&self, other: &Ip4) -> bool {
        same(*self, *other)
    }
}

/// - `Eq`: See `Ip4` as `PartialEq`.
impl Eq for Ip4 {
    ghost use Rattle.td_base.specs.Ip4.{same_ip_equiv};

    ghost laws = { same_ip_equiv };
}

/// - `PartialOrd`: See `Ip4` as `PartialEq`.
impl PartialOrd for Ip4 {
    ghost use Rattle.std.specs.Ordering.{as_partial_cmp};
    ghost use Rattle.td_base.specs.Ip4.{cmp_ip, cmp_ip_po};

    ghost partial_cmp = { as_partial_cmp cmp_ip };

    ghost laws = { cmp_ip_po };

    fn partial_cmp(&self, other: &Ip4) -> Option<Ordering> {
        Some(self.cmp(other))
    }
}

/// - `Ord`: See `Ip4` as `PartialEq`.
impl Ord for Ip4 {
    ghost use Rattle.std.specs.Prelude.{refl};
    ghost use Rattle.td_base.specs.Ip4.{cmp_ip, cmp_ip_total, cmp_ip_ties};

    ghost cmp = { cmp_ip };

    ghost total = { cmp_ip_total };

    ghost matches_partial_cmp = { λ x y. refl };

    ghost matches_eq = { cmp_ip_ties };

    #[tactic(auto, unfolding(crate::specs::Ip4::cmp_ip))]
    fn cmp(&self, other: &Ip4) -> Ordering {
        self.0.cmp(&other.0)
    }
}
