//! Packets into bytes.
ghost use Rattle.std.specs.Prelude.{◌≡◌, ◌+◌, ◌*◌, ◌<◌, ◌^◌, ◌/◌, length, take, slice_index, IfOk, Ok};
ghost use Rattle.td_base.specs.Bytes.{Writes};
ghost use Rattle.ipv6_packet.specs.Packets.{packet_view, PacketBytes, packet_bytes, packet_at};

use crate::header::{HEADER, Packet, VERSION};
use td_base::{Room, put, put8, put16, put32};

/// How many bytes a packet takes.
#[inline(always)]
pub fn len(p: &Packet) -> usize
    requires { length p.now.body.now < 2 ^ 16 }
    /// See `write`: `written`.
    ensures whole { result ≡ length (packet_bytes (packet_view p.now)) }
    /// See `write`: `written`.
    ensures parts { result ≡ HEADER + length p.now.body.now }
    // A packet begins with the version.
    /// See `write`: `written`.
    ensures version { p.now.flow < 2 ^ 20 → slice_index (packet_bytes (packet_view p.now)) 0 / 16 ≡ VERSION }
{
    // This read tells the proof that source and destination have 16 bytes each.
    let _next = p.next;
    HEADER + p.body.len()
}

/// Version, class and flow.
#[inline(always)]
fn first_word(class: u8, flow: u32) -> u32
    requires { flow < 2 ^ 20 }
    ensures { result ≡ VERSION * 2 ^ 28 + class * 2 ^ 20 + flow }
{
    u32::from(VERSION) << 28 | (u32::from(class) << 20 | flow)
}

/// Writes a packet to the front of `out`, and answers how many bytes it took.
#[inline(always)]
pub fn write(p: &Packet, out: &mut [u8]) -> Result<usize, Room>
    requires flow { p.now.flow < 2 ^ 20 }
    requires body { length p.now.body.now < 2 ^ 16 }
    /// `write` puts the packet's bytes at the front of the buffer and leaves the rest, or refuses exactly where the
    /// buffer is shorter and changes nothing.
    /// Needs: flow below 2^20, a body of at most 65,535 bytes.
    ensures written { Writes (packet_bytes (packet_view p.now)) out.old out.new result }
    // It is a packet's spelling.
    /// See `written`.
    ensures spelled { IfOk result (λ n. PacketBytes (packet_view p.now) (take n out.new)) }
    /// What `write` wrote reads back as the packet.
    /// Needs: flow below 2^20, a body of at most 65,535 bytes.
    ensures again { IfOk result (λ n. packet_at (take n out.new) ≡ Ok (packet_view p.now)) }
{
    let needed = len(p);
    if out.len() < needed {
        return Err(Room { needed });
    }
    let at = put32(out, 0, first_word(p.class, p.flow));
    let at = put16(out, at, p.body.len() as u16);
    let at = put8(out, at, p.next);
    let at = put8(out, at, p.hop);
    let at = put(out, at, &p.src.0);
    let at = put(out, at, &p.dst.0);
    Ok(put(out, at, p.body))
}
