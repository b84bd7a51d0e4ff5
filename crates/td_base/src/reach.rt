//! Which addresses are global, usable or link-local.
ghost use Rattle.std.specs.Prelude.{◌≡◌};
ghost use Rattle.td_base.specs.Reach.{is_global, is_usable, is_global6, is_link_local};

use crate::endpoint::Ep;
use crate::ipv4::Ip4;
use crate::ipv6::Ip6;

/// Whether the loopback addresses of IPv4 count as global: they do where a server is tried on one machine.
#[derive(Clone, Copy, Debug, PartialEq, Eq)]
pub enum Policy {
    Strict,
    Loopback,
}

/// Whether an IPv4 address is global: RFC 4380, section 4, asks it of an embedded address and leaves the table open.
#[tactic(auto, unfolding(crate::specs::Reach::is_global))]
pub fn is_global(policy: Policy, ip: Ip4) -> bool
    /// Global, usable and link-local are the tables of the rules; a server's endpoint has port 3544; the other side is
    /// the other one.
    /// Leaves open: that the table is the RFC's: it is our own choice.
    ensures { result ≡ is_global policy ip }
{
    match ip.0 {
        [0 | 10 | 224..=255, ..] | [169, 254, ..] | [172, 16..=31, ..] | [192, 168, ..] => false,
        [127, ..] => policy == Policy::Loopback,
        _ => true,
    }
}

/// Whether an endpoint has a global address and a port other than 0.
#[tactic(auto, unfolding(crate::specs::Reach::is_usable))]
pub fn usable(policy: Policy, ep: Ep) -> bool
    /// See `is_global`.
    ensures { result ≡ is_usable policy ep }
{
    is_global(policy, ep.ip) && ep.port != 0
}

/// Whether an IPv6 address lies in 2000::/3.
#[tactic(auto, unfolding(crate::specs::Reach::is_global6))]
pub fn is_global6(ip: Ip6) -> bool
    /// See `is_global`.
    ensures { result ≡ is_global6 ip }
{
    ip.0[0] >> 5 == 1
}

/// Whether an IPv6 address lies in fe80::/10.
#[tactic(auto, unfolding(crate::specs::Reach::is_link_local))]
pub fn is_link_local(ip: Ip6) -> bool
    /// See `is_global`.
    ensures { result ≡ is_link_local ip }
{
    ip.0[0] == 0xfe && ip.0[1] >> 6 == 2
}
