//! The record of an entry in a capture.
ghost use Rattle.std.specs.Prelude.{◌≡◌, ◌≤◌, ◌*◌, ◌/◌, ◌%◌, ◌^◌, false, length, take};
ghost use Rattle.history.specs.Full.{bytes_of};
ghost use Rattle.td_base.specs.Ep.{IsEp};
ghost use Rattle.td_ipv4.specs.Checksums.{made_bytes};
ghost use Rattle.td_pcap.specs.Records.{record_bytes};
ghost use Rattle.world.specs.WireEntry.{item_lent};
ghost use Rattle.player.specs.Capture.{capture_head, packet_of, entry_record};

use td_base::{DATAGRAM_MAX, Ep, Millis, put};
use td_ipv4::{HEAD_MIN, UDP_HEAD, made_is_udp4, make};
use td_pcap::{Head, KEPT_MAX, REC_HEAD, Rec, capture_is_bytes, write_rec};
use world::WireEntry;

/// The milliseconds of a second.
pub const SECOND_MS: u64 = 1_000;

/// The microseconds of a millisecond.
pub const MILLI_MICROS: u32 = 1_000;

/// The seconds of a record are fewer.
const SECONDS_END: u64 = 4_294_967_296;

/// The most bytes of an entry's packet.
const IPV4_PACKET_MAX: usize = HEAD_MIN + UDP_HEAD + DATAGRAM_MAX;

/// The most bytes of an entry's record.
const RECORD_MAX: usize = REC_HEAD + IPV4_PACKET_MAX;

/// The head of each capture that is written here.
pub(crate) fn capture_head() -> Head
    ensures { result ≡ capture_head }
{
    Head {
        little: false,
        nano: false,
        zone: 0,
        figs: 0,
        snap: KEPT_MAX as u32,
    }
}

/// The whole seconds of a moment, which begin again where 32 bits end.
fn seconds(moment: Millis) -> u32
    ensures { result ≡ moment.0 / SECOND_MS % 2 ^ 32 }
{
    (moment.0 / SECOND_MS % SECONDS_END) as u32
}

/// What is left of a moment behind its whole seconds, in microseconds.
fn micros(moment: Millis) -> u32
    ensures { result ≡ moment.0 % SECOND_MS * MILLI_MICROS }
{
    (moment.0 % SECOND_MS) as u32 * MILLI_MICROS
}

/// An endpoint has an address of four bytes.
fn is_made(ep: Ep)
    ensures { IsEp ep }
{}

/// Puts a datagram with both its headers to the front of `out`, and answers how many bytes it has.
fn put_datagram(src: Ep, dst: Ep, body: &[u8], out: &mut [u8; IPV4_PACKET_MAX]) -> usize
    requires { length body.now ≤ DATAGRAM_MAX }
    ensures count { result ≡ length (made_bytes src dst body.now) }
    ensures most { result ≤ IPV4_PACKET_MAX }
    ensures bytes { take result out.new ≡ made_bytes src dst body.now }
{
    made_is_udp4();
    is_made(src);
    is_made(dst);
    match make(src, dst, body, out) {
        Ok(len) => len,
        Err(_) => unreachable!(),
    }
}

/// Puts an entry as it is on the wire to the front of `out`, and answers how many bytes it has.
fn put_packet(entry: WireEntry<'_>, out: &mut [u8; IPV4_PACKET_MAX]) -> usize
    requires { length (bytes_of (item_lent entry)) ≤ DATAGRAM_MAX }
    ensures count { result ≡ length (packet_of (item_lent entry.entry)) }
    ensures most { result ≤ IPV4_PACKET_MAX }
    ensures bytes { take result out.new ≡ packet_of (item_lent entry.entry) }
{
    match entry {
        WireEntry::Udp { src, dst, bytes } => put_datagram(src, dst, bytes, out),
        WireEntry::Six { bytes, .. } => put(out, 0, bytes),
    }
}

/// Where the record of an entry is made: its packet, and then the whole. It is used again for each, since it would take
/// longer to clear it anew than to write a small record.
#[derive(Drop)]
pub(crate) struct RecordRoom {
    packet: [u8; IPV4_PACKET_MAX],
    record: [u8; RECORD_MAX],
}

impl RecordRoom {
    pub(crate) fn new() -> RecordRoom {
        RecordRoom {
            packet: [0; IPV4_PACKET_MAX],
            record: [0; RECORD_MAX],
        }
    }

    /// Puts the record of an entry that was made at this moment in place of what it held, and lends it.
    pub(crate) fn put_record(&mut self, moment: Millis, entry: WireEntry<'_>) -> &[u8]
        requires { length (bytes_of (item_lent entry)) ≤ DATAGRAM_MAX }
        ensures { result.now ≡ record_bytes false (entry_record moment.0 (item_lent entry.entry)) }
    {
        capture_is_bytes();
        let len = put_packet(entry, &mut self.packet);
        let record = Rec {
            sec: seconds(moment),
            frac: micros(moment),
            orig: len as u32,
            bytes: &self.packet[..len],
        };
        match write_rec(&capture_head(), &record, &mut self.record) {
            Ok(end) => &self.record[..end],
            Err(_) => unreachable!(),
        }
    }
}
