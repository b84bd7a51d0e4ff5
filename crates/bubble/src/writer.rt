//! Payloads into bytes.
ghost use Rattle.std.specs.Prelude.{◌≡◌, ◌+◌, ◌<◌, ◌≤◌, ◌^◌, length, take, IfOk, Ok};
ghost use Rattle.td_base.specs.Bytes.{Writes};
ghost use Rattle.ipv6_packet.specs.Packets.{packet_view};
ghost use Rattle.indications.specs.Blocks.{indications_len};
ghost use Rattle.bubble.specs.Payloads.{PayloadBytes, value_written, payload_at};
ghost use Rattle.bubble.specs.Reads.{payload_bytes};

use ipv6_packet::{HEADER, Packet};
use td_base::{DATAGRAM_MAX, Ep, Room};

/// Writes the indications that are given and then the packet to the front of `out`, and answers how many bytes
/// they took.
#[inline(always)]
pub fn write(
    nonce: Option<u64>,
    origin: Option<Ep>,
    packet: &Packet,
    out: &mut [u8],
) -> Result<usize, Room>
    requires flow { packet.now.flow < 2 ^ 20 }
    requires whole { indications_len nonce origin + HEADER + length packet.now.body.now ≤ DATAGRAM_MAX }
    /// `write` puts the indications and the packet at the front of the buffer and leaves the rest, or refuses exactly
    /// where the buffer is shorter and changes nothing.
    /// Needs: flow below 2^20, at most 1,400 bytes in all.
    ensures written { Writes (payload_bytes nonce origin (packet_view packet.now)) out.old out.new result }
    // It is a payload's spelling.
    /// See `written`.
    ensures spelled { IfOk result (λ n. PayloadBytes (value_written nonce origin (packet_view packet.now)) (take n out.new)) }
    /// What `write` wrote reads back as the payload.
    /// Needs: flow below 2^20, at most 1,400 bytes in all.
    ensures again { IfOk result (λ n. payload_at (take n out.new) ≡ Ok (value_written nonce origin (packet_view packet.now))) }
{
    let needed = indications::len(nonce, origin) + ipv6_packet::len(packet);
    if out.len() < needed {
        return Err(Room { needed });
    }
    let at = indications::write(nonce, origin, out)?;
    let len = ipv6_packet::write(packet, &mut out[at..])?;
    Ok(at + len)
}
