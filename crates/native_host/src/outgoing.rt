//! Packets that a native host sends.
ghost use Rattle.std.specs.Prelude.{◌≡◌};
ghost use Rattle.native_host.specs.Natives.{sent_by, native_out};

use ipv6_packet::is_big;
use td_base::{Ip6, is_global6};
use teredo_node::Fate;

/// What the host with this address does with bytes that it sends as a packet. They go out as they are exactly where the
/// fate is `SentSix`.
#[tactic(auto, unfolding(crate::specs::Natives::native_out))]
pub fn send(own: Ip6, bytes: &[u8]) -> Fate
    /// A packet that a host sends has the fate of the first line of its table that holds, and goes out as it is, or not
    /// at all.
    /// Leaves open: which way it goes.
    ensures { native_out own bytes.now ≡ sent_by bytes.now result }
{
    // malformed: our choice
    let Ok(packet) = ipv6_packet::read(bytes) else {
        return Fate::Malformed;
    };
    // big: our choice
    if is_big(&packet) {
        return Fate::Big;
    }
    // source: our choice
    if packet.src != own {
        return Fate::Source;
    }
    // dest: our choice
    if !is_global6(packet.dst) {
        return Fate::Dest;
    }
    // sent_six: our choice
    Fate::SentSix
}
