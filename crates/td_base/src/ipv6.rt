//! An IPv6 address.
ghost use Rattle.std.specs.Prelude.{◌≡◌, length};
ghost use Rattle.td_base.specs.Bytes.{IsBytes, number_at};
ghost use Rattle.td_base.specs.Ip6.{same_ip6};

use crate::fields::field64;
use std::cmp::Ordering;

/// An IPv6 address, its sixteen bytes in network order.
#[derive(Clone, Copy, Debug)]
pub struct Ip6(pub [u8; 16]);

/// The two halves of an address, as numbers.
#[inline(always)]
fn halves(bytes: &[u8]) -> (u64, u64)
    requires { length bytes.now ≡ 16 }
    ensures first { result.0 ≡ number_at 0 8 bytes.now }
    ensures last { result.1 ≡ number_at 8 8 bytes.now }
    ensures bytes { IsBytes bytes.now }
{
    (field64(bytes, 0), field64(bytes, 8))
}

/// Whether two addresses are the same. As numbers, and by value: byte by byte, and from memory, was measured to be slow.
#[inline(always)]
fn same(a: Ip6, b: Ip6) -> bool
    ensures { result ≡ same_ip6 a b }
{
    let (a_first, a_last) = halves(&a.0);
    let (b_first, b_last) = halves(&b.0);
    a_first == b_first && a_last == b_last
}

/// - `PartialEq`: See `Ip4` as `PartialEq`.
impl PartialEq for Ip6 {
    ghost use Rattle.std.specs.Cmp.{partial_equiv_from_equiv};
    ghost use Rattle.td_base.specs.Ip6.{same_ip6, same_ip6_equiv};

    ghost eq = { same_ip6 };

    ghost laws = { partial_equiv_from_equiv same_ip6_equiv };

    #[inline(always)]
    fn eq(&self, other: &Ip6) -> bool {
        same(*self, *other)
    }
}

/// - `Eq`: See `Ip4` as `PartialEq`.
impl Eq for Ip6 {
    ghost use Rattle.td_base.specs.Ip6.{same_ip6_equiv};

    ghost laws = { same_ip6_equiv };
}

/// - `PartialOrd`: See `Ip4` as `PartialEq`.
impl PartialOrd for Ip6 {
    ghost use Rattle.std.specs.Ordering.{as_partial_cmp};
    ghost use Rattle.td_base.specs.Ip6.{cmp_ip6, cmp_ip6_po};

    ghost partial_cmp = { as_partial_cmp cmp_ip6 };

    ghost laws = { cmp_ip6_po };

    fn partial_cmp(&self, other: &Ip6) -> Option<Ordering> {
        Some(self.cmp(other))
    }
}

/// - `Ord`: See `Ip4` as `PartialEq`.
impl Ord for Ip6 {
    ghost use Rattle.std.specs.Prelude.{refl};
    ghost use Rattle.td_base.specs.Ip6.{cmp_ip6, cmp_ip6_total, cmp_ip6_ties};

    ghost cmp = { cmp_ip6 };

    ghost total = { cmp_ip6_total };

    ghost matches_partial_cmp = { λ x y. refl };

    ghost matches_eq = { cmp_ip6_ties };

    /// As numbers, half by half: byte by byte was measured to be slow, and so was to compare the last halves where the first
    /// ones differ.
    #[inline(always)]
    fn cmp(&self, other: &Ip6) -> Ordering {
        let (first, last) = halves(&self.0);
        let (other_first, other_last) = halves(&other.0);
        if first != other_first {
            return first.cmp(&other_first);
        }
        last.cmp(&other_last)
    }
}
