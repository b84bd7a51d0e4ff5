//! The fields of an address, one by one.
ghost use Rattle.std.specs.Prelude.{◌≡◌, ◌+◌, ◌≤◌, length, take, drop};
ghost use Rattle.teredo_addr.specs.Teredo.{is_teredo, server_in, cone_in, has_cone, embedded};

use crate::address::TEREDO_PREFIX;
use crate::hidden_endpoint::show;
use td_base::{Ep, Ip4, Ip6, field32, ip4_at};

/// The flag of an address behind a cone NAT: RFC 4380, section 4.
pub const CONE: u16 = 0x8000;

/// Whether an address has the prefix of the Teredo service.
#[inline(always)]
#[tactic(auto, unfolding(crate::specs::Teredo::is_teredo))]
pub fn is_teredo(ip: Ip6) -> bool
    /// See `of_ip6`: `some`.
    ensures { result ≡ is_teredo ip }
{
    field32(&ip.0, 0) == TEREDO_PREFIX
}

/// The server's address in a Teredo address.
#[inline(always)]
#[tactic(auto, unfolding(crate::specs::Teredo::server_in))]
pub fn server_of(ip: Ip6) -> Ip4
    /// The parts of an address, one by one: the server, the cone bit, the mapped endpoint.
    /// Leaves open: what the other flags mean.
    ensures { result ≡ server_in ip }
{
    ip4_at(&ip.0, 4)
}

/// Whether the cone bit is among flags.
#[inline(always)]
#[tactic(auto, unfolding(crate::specs::Teredo::cone_in))]
pub fn is_cone(flags: u16) -> bool
    /// See `server_of`.
    ensures { result ≡ cone_in flags }
{
    flags & CONE != 0
}

/// Whether the cone bit is set in a Teredo address, or in a link-local one that was made of an endpoint.
#[inline(always)]
#[tactic(auto, unfolding(crate::specs::Teredo::has_cone))]
pub fn has_cone(ip: Ip6) -> bool
    /// See `server_of`.
    ensures { result ≡ has_cone ip }
{
    ip.0[8] >> 7 == 1
}

/// The endpoint that an address embeds, in clear: the client's mapped address and port.
#[inline(always)]
#[tactic(auto, unfolding(crate::specs::Teredo::embedded))]
pub fn embedded(ip: Ip6) -> Ep
    /// See `server_of`.
    ensures { result ≡ embedded ip }
{
    show(&ip.0, 10)
}
