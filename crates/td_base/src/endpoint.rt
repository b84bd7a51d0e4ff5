//! An endpoint.
use crate::ipv4::Ip4;
use std::cmp::Ordering;

/// The UDP port of Teredo servers: RFC 4380, section 2.7.
pub const TEREDO_PORT: u16 = 3544;

/// A UDP endpoint: an IPv4 address and a port.
#[derive(Clone, Copy, Debug)]
pub struct Ep {
    pub ip: Ip4,
    pub port: u16,
}

impl Ep {
    ghost use Rattle.std.specs.Prelude.{◌≡◌};
    ghost use Rattle.td_base.specs.Ep.{server_ep};

    /// The endpoint of a server at an address.
    pub fn of_server(ip: Ip4) -> Ep
        /// See `is_global`.
        ensures { result ≡ server_ep ip }
    {
        Ep {
            ip,
            port: TEREDO_PORT,
        }
    }
}

/// - `PartialEq`: See `Ip4` as `PartialEq`.
impl PartialEq for Ep {
    ghost use Rattle.std.specs.Cmp.{partial_equiv_from_equiv};
    ghost use Rattle.td_base.specs.Ep.{same_ep, same_ep_equiv};

    ghost eq = { same_ep };

    ghost laws = { partial_equiv_from_equiv same_ep_equiv };

    #[inline(always)]
    #[tactic(auto, unfolding(crate::specs::Ep::same_ep))]
    fn eq(&self, other: &Ep) -> bool {
        self.ip == other.ip && self.port == other.port
    }
}

/// - `Eq`: See `Ip4` as `PartialEq`.
impl Eq for Ep {
    ghost use Rattle.td_base.specs.Ep.{same_ep_equiv};

    ghost laws = { same_ep_equiv };
}

/// - `PartialOrd`: See `Ip4` as `PartialEq`.
impl PartialOrd for Ep {
    ghost use Rattle.std.specs.Ordering.{as_partial_cmp};
    ghost use Rattle.td_base.specs.Ep.{cmp_ep, cmp_ep_po};

    ghost partial_cmp = { as_partial_cmp cmp_ep };

    ghost laws = { cmp_ep_po };

    fn partial_cmp(&self, other: &Ep) -> Option<Ordering> {
        Some(self.cmp(other))
    }
}

/// - `Ord`: See `Ip4` as `PartialEq`.
impl Ord for Ep {
    ghost use Rattle.std.specs.Prelude.{refl};
    ghost use Rattle.td_base.specs.Ep.{cmp_ep, cmp_ep_total, cmp_ep_ties};

    ghost cmp = { cmp_ep };

    ghost total = { cmp_ep_total };

    ghost matches_partial_cmp = { λ x y. refl };

    ghost matches_eq = { cmp_ep_ties };

    #[tactic(auto, unfolding(crate::specs::Ep::cmp_ep))]
    fn cmp(&self, other: &Ep) -> Ordering {
        self.ip.cmp(&other.ip).then(self.port.cmp(&other.port))
    }
}
