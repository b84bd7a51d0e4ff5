//! Teredo addresses that bubbles can be sent to.
ghost use Rattle.std.specs.Prelude.{◌≡◌};
ghost use Rattle.teredo_addr.specs.Reaching.{is_reachable};

use crate::fields::{embedded, server_of};
use td_base::{Ip6, Policy, is_global, usable};

/// Whether bubbles can be sent to a Teredo address: its embedded endpoint can be used, and its server is global.
#[tactic(auto, unfolding(crate::specs::Reaching::is_reachable))]
pub fn is_reachable(policy: Policy, ip: Ip6) -> bool
    /// Bubbles can be sent to an address whose embedded endpoint can be used and whose server is global.
    /// Leaves open: whether anybody is there.
    ensures { result ≡ is_reachable policy ip }
{
    usable(policy, embedded(ip)) && is_global(policy, server_of(ip))
}
