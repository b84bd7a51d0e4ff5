//! Datagrams out of bytes.
ghost use Rattle.std.specs.Prelude.{◌≡◌, ◌+◌, ◌*◌, ◌/◌, ◌%◌, ◌≤◌, length, IfOk, IfErr, OnOk, Ok, slice_index};
ghost use Rattle.td_base.specs.Results.{Gives};
ghost use Rattle.td_ipv4.specs.Datagrams.{Udp4Fields, udp4_view, Udp4Bytes};
ghost use Rattle.td_ipv4.specs.Tests.{udp_place, udp_fault, ep_at, udp4_fields, udp4_at};
ghost use Rattle.td_ipv4.specs.Faults.{IsFirstIp4Fault};

use crate::fault::Ip4Fault;
use crate::numbers::{FRAGMENT_BITS, HEAD_MIN, IPV4, UDP, UDP_HEAD, WORD};
use crate::udp4::Udp4;
use td_base::{Ep, field16, ip4_at};

/// The datagram that the bytes spell, all of the bytes. No checksum is looked at: captures on the machine that sends often
/// hold unfinished ones.
#[inline(always)]
pub fn read(bytes: &[u8]) -> Result<Udp4<'_>, Ip4Fault>
    /// What is read is the datagram that the list of bytes spells, both headers with options and body.
    /// Leaves open: checksums, which refuse nothing: captures on the machine that sends often hold unfinished ones.
    ensures found { IfOk result (λ u. Udp4Bytes (udp4_view u) bytes.now) }
    /// A list that spells a datagram is read as it.
    ensures only { (v : Udp4Fields) → Udp4Bytes v bytes.now → Gives udp4_view result (Ok v) }
    /// A list that spells no datagram is refused by the first of eight faults that applies, with the values said and
    /// found. The faults are `Short`, `Version`, `Head`, `Length`, `Fragment`, `Protocol`, `UdpShort` and `UdpLength`,
    /// in this order.
    ensures fault { IfErr result (λ e. IsFirstIp4Fault e bytes.now) }
    // Options and body are what the headers leave.
    /// See `found`.
    ensures inside { IfOk result (λ u. HEAD_MIN + length u.options.now + UDP_HEAD + length u.body.now ≡ length bytes.now) }
    // The same as one function of the bytes.
    /// See `fault`.
    ensures exact { Gives udp4_view result (udp4_at bytes.now) }
{
    datagram_of(bytes)
}

#[inline(always)]
#[tactic(auto, unfolding(crate::specs::Tests::udp4_at))]
fn datagram_of(bytes: &[u8]) -> Result<Udp4<'_>, Ip4Fault>
    ensures inside { IfOk result (λ u. HEAD_MIN + length u.options.now + UDP_HEAD + length u.body.now ≡ length bytes.now) }
    ensures exact { Gives udp4_view result (udp4_at bytes.now) }
{
    let place = udp_place(bytes)?;
    has_udp(bytes, place)?;
    Ok(datagram_in(bytes, place))
}

/// The length of the header in words, out of its first byte.
#[inline(always)]
fn words_in(first: u8) -> u8
    ensures { result ≡ first % 16 }
{
    first & 0xf
}

/// Where UDP's header begins: behind a whole header of IPv4 that is no fragment's.
#[inline(always)]
#[tactic(auto, unfolding(crate::specs::Tests::udp_place))]
fn udp_place(bytes: &[u8]) -> Result<usize, Ip4Fault>
    ensures exact { Gives (λ place. place) result (udp_place bytes.now) }
    ensures inside { IfOk result (λ place. (HEAD_MIN ≤ place) × (place ≤ length bytes.now)) }
{
    let there = bytes.len();
    if there < HEAD_MIN {
        return Err(Ip4Fault::Short { len: there });
    }
    let nibble = bytes[0] >> 4;
    if nibble != IPV4 {
        return Err(Ip4Fault::Version { nibble });
    }
    let words = words_in(bytes[0]);
    let place = WORD * words as usize;
    if place < HEAD_MIN {
        return Err(Ip4Fault::Head { words });
    }
    if there < place {
        return Err(Ip4Fault::Head { words });
    }
    let said = field16(bytes, 2) as usize;
    if said != there {
        return Err(Ip4Fault::Length { said, there });
    }
    let field = field16(bytes, 6);
    if field & FRAGMENT_BITS != 0 {
        return Err(Ip4Fault::Fragment { field });
    }
    if bytes[9] != UDP {
        return Err(Ip4Fault::Protocol { number: bytes[9] });
    }
    Ok(place)
}

/// UDP's header begins at a place, and tells how many bytes are left.
#[inline(always)]
#[tactic(auto, unfolding(crate::specs::Tests::udp_fault))]
fn has_udp(bytes: &[u8], place: usize) -> Result<(), Ip4Fault>
    requires { place ≤ length bytes.now }
    ensures exact { Gives (λ x. x) result (udp_fault place bytes.now) }
    ensures inside { OnOk result (place + UDP_HEAD ≤ length bytes.now) }
{
    let there = bytes.len() - place;
    if there < UDP_HEAD {
        return Err(Ip4Fault::UdpShort { len: there });
    }
    let said = field16(bytes, place + 4) as usize;
    if said != there {
        return Err(Ip4Fault::UdpLength { said, there });
    }
    Ok(())
}

/// The datagram whose UDP header begins at a place.
#[inline(always)]
fn datagram_in(bytes: &[u8], place: usize) -> Udp4<'_>
    requires head { HEAD_MIN ≤ place }
    requires udp { place + UDP_HEAD ≤ length bytes.now }
    ensures inside { HEAD_MIN + length result.options.now + UDP_HEAD + length result.body.now ≡ length bytes.now }
    ensures exact { udp4_view result ≡ udp4_fields place bytes.now }
{
    Udp4 {
        tos: bytes[1],
        id: field16(bytes, 4),
        frag: field16(bytes, 6),
        ttl: bytes[8],
        head_sum: field16(bytes, 10),
        options: &bytes[HEAD_MIN..place],
        src: ep_at(bytes, 12, place),
        dst: ep_at(bytes, 16, place + 2),
        udp_sum: field16(bytes, place + 6),
        body: &bytes[place + UDP_HEAD..],
    }
}

/// The endpoint of an address and a port at their places.
#[inline(always)]
fn ep_at(bytes: &[u8], address: usize, port: usize) -> Ep
    requires address { address + 4 ≤ length bytes.now }
    requires port { port + 2 ≤ length bytes.now }
    ensures { result ≡ ep_at address port bytes.now }
{
    Ep {
        ip: ip4_at(bytes, address),
        port: field16(bytes, port),
    }
}
