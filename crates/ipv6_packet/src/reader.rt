//! Packets out of bytes.
ghost use Rattle.std.specs.Prelude.{◌≡◌, ◌+◌, ◌≤◌, length, true, false, IfOk, IfErr, OnOk, Ok};
ghost use Rattle.td_base.specs.Results.{Gives};
ghost use Rattle.ipv6_packet.specs.Packets.{Fields, packet_view, PacketBytes, IsFirstPacketFault, fields_of, packet_at};
ghost use Rattle.ipv6_packet.specs.Reads.{is_packet, fields_in};

use crate::fault::PacketFault;
use crate::header::{HEADER, Packet, VERSION};
use td_base::{field16, field32, ip6_at};

/// The packet that the bytes spell, all of the bytes.
#[inline(always)]
pub fn read(bytes: &[u8]) -> Result<Packet<'_>, PacketFault>
    /// What is read is the packet that the list of bytes spells.
    /// Leaves open: what a body means.
    ensures found { IfOk result (λ p. PacketBytes (packet_view p) bytes.now) }
    /// A list that spells a packet is read as it.
    ensures only { (v : Fields) → PacketBytes v bytes.now → Gives packet_view result (Ok v) }
    /// A list that spells no packet is refused by the first of `Short`, `Version`, `Length` that applies, with the
    /// values said and found.
    ensures fault { IfErr result (λ e. IsFirstPacketFault e bytes.now) }
    // The body is what follows the header.
    /// See `found`.
    ensures inside { IfOk result (λ p. HEADER + length p.body.now ≡ length bytes.now) }
    /// A definition that looks at bytes sees the packet that `read` gives, or that there is none; a packet is big where
    /// it has more than 1,280 bytes.
    ensures seen { IfOk result (λ p. (is_packet bytes.now ≡ true) × (fields_in bytes.now ≡ packet_view p)) }
    /// See `seen`.
    ensures unseen { IfErr result (λ e. is_packet bytes.now ≡ false) }
    // The same as one function of the bytes.
    /// See `found`.
    ensures exact { Gives packet_view result (packet_at bytes.now) }
{
    packet_of(bytes)
}

#[inline(always)]
fn packet_of(bytes: &[u8]) -> Result<Packet<'_>, PacketFault>
    ensures inside { IfOk result (λ p. HEADER + length p.body.now ≡ length bytes.now) }
    ensures exact { Gives packet_view result (packet_at bytes.now) }
{
    check(bytes)?;
    Ok(packet_in(bytes))
}

/// Whether the bytes spell a packet, or their first fault. A reader that builds more than the packet asks here first,
/// and then takes the packet where it belongs.
#[inline(always)]
#[tactic(auto, unfolding(crate::specs::Packets::packet_at))]
pub fn check(bytes: &[u8]) -> Result<(), PacketFault>
    /// `read` has two steps for a reader that builds more than a packet: `check` gives the first fault or none, and
    /// `packet_in` then gives the packet.
    /// Needs: forty bytes, for the packet.
    ensures long { OnOk result (HEADER ≤ length bytes.now) }
    /// See `long`.
    ensures exact { Gives (λ _. fields_of bytes.now) result (packet_at bytes.now) }
{
    if bytes.len() < HEADER {
        return Err(PacketFault::Short { len: bytes.len() });
    }
    let nibble = (field32(bytes, 0) >> 28) as u8;
    if nibble != VERSION {
        return Err(PacketFault::Version { nibble });
    }
    let said = field16(bytes, 4) as usize;
    let there = bytes.len() - HEADER;
    if said != there {
        return Err(PacketFault::Length { said, there });
    }
    Ok(())
}

/// The packet in bytes that `check` passed.
#[inline(always)]
pub fn packet_in(bytes: &[u8]) -> Packet<'_>
    requires { HEADER ≤ length bytes.now }
    /// See `check`: `long`.
    ensures inside { HEADER + length result.body.now ≡ length bytes.now }
    /// See `check`: `long`.
    ensures exact { packet_view result ≡ fields_of bytes.now }
{
    let word = field32(bytes, 0);
    Packet {
        flow: word & 0xf_ffff,
        class: (word >> 20 & 0xff) as u8,
        next: bytes[6],
        hop: bytes[7],
        src: ip6_at(bytes, 8),
        dst: ip6_at(bytes, 24),
        body: &bytes[HEADER..],
    }
}
