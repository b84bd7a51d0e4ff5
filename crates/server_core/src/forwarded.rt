//! Packets that go on to another Teredo client.
ghost use Rattle.std.specs.Prelude.{◌≡◌, ◌≤◌, ◌+◌, length, take, Some, None};
ghost use Rattle.server_core.specs.Outputs.{forwarded};

use indications::ORIGIN;
use ipv6_packet::PACKET_MAX;
use td_base::{DATAGRAM_MAX, Ep, put};

/// Writes a packet with the origin `from`, and answers how many bytes that has.
#[tactic(auto, unfolding(crate::specs::Outputs::forwarded))]
pub fn write_with_origin(from: Ep, packet: &[u8], out: &mut [u8]) -> usize
    requires small { length packet.now ≤ PACKET_MAX }
    requires room { length out.old ≡ DATAGRAM_MAX }
    ensures len { result ≡ ORIGIN + length packet.now }
    ensures written { take result out.new ≡ forwarded (Some from) packet.now }
{
    let at = indications::write(None, Some(from), out).unwrap();
    put(out, at, packet)
}

/// Writes a packet as it is, and answers how many bytes it has.
#[tactic(auto, unfolding(crate::specs::Outputs::forwarded))]
pub fn write_alone(packet: &[u8], out: &mut [u8]) -> usize
    requires small { length packet.now ≤ PACKET_MAX }
    requires room { length out.old ≡ DATAGRAM_MAX }
    ensures len { result ≡ length packet.now }
    ensures written { take result out.new ≡ forwarded None packet.now }
{
    put(out, 0, packet)
}
