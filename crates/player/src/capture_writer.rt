//! The writer of a capture.
ghost use Rattle.std.specs.Prelude.{◌≡◌, ◌≤◌, [], ◌∷◌, length, map, drop};
ghost use Rattle.history.specs.Full.{bytes_of, wire};
ghost use Rattle.td_pcap.specs.Heads.{head_bytes};
ghost use Rattle.world.specs.WireEntry.{item_lent};
ghost use Rattle.sink_lines.specs.Lines.{Writing};
ghost use Rattle.player.specs.Capture.{capture_head, entry_record, record_pieces, step_records};
ghost use Rattle.player.specs.Accounts.{capture_account};
ghost use Rattle.player.specs.CaptureLaws.{capture_grows};

use crate::entry_record::{RecordRoom, capture_head};
use crate::hear_fault::HearFault;
use crate::listener::Listener;
use events::Event;
use history::Record;
use sink_lines::write_line;
use td_base::{DATAGRAM_MAX, Millis};
use td_outside::{Failed, Sink};
use td_pcap::{HEAD, capture_is_bytes, write_head};
use world::{WireEntry, World};

/// Writes the head.
fn write_capture_head<K: Sink>(out: &mut K) -> Result<(), Failed>
    ensures { Writing (K.state out.old) (K.state out.new) (head_bytes capture_head ∷ []) result }
{
    capture_is_bytes();
    let mut head = [0; HEAD];
    match write_head(&capture_head(), &mut head) {
        Ok(len) => write_line(out, &head[..len]),
        Err(_) => unreachable!(),
    }
}

/// Writes the record of an entry that was made at this moment.
fn write_entry<K: Sink>(
    moment: Millis,
    entry: WireEntry<'_>,
    room: &mut RecordRoom,
    out: &mut K,
) -> Result<(), Failed>
    requires { length (bytes_of (item_lent entry)) ≤ DATAGRAM_MAX }
    ensures { Writing (K.state out.old) (K.state out.new) (record_pieces (entry_record moment.0 (item_lent entry.entry) ∷ [])) result }
{
    let record = room.put_record(moment, entry);
    write_line(out, record)
}

/// Writes the records of all entries from this number on, which were made at this moment.
fn write_entries<K: Sink>(
    moment: Millis,
    world: &World,
    first: u32,
    room: &mut RecordRoom,
    out: &mut K,
) -> Result<(), Failed>
    requires { first ≤ length world.now.wire }
    ensures { Writing (K.state out.old) (K.state out.new) (record_pieces (map (entry_record moment.0) (drop first world.now.wire))) result }
{
    let mut number = first;
    let end = world.entries();
    'entries: while number < end {
        let Some(entry) = world.entry(number) else {
            unreachable!();
        };
        write_entry(moment, entry, room, out)?;
        number += 1;
    }
    Ok(())
}

/// Writes the capture of a scenario's wire: the head, and of each entry a record as soon as it was made.
#[derive(Drop)]
pub struct CaptureWriter {
    // how many entries were written
    entries: u32,
    room: RecordRoom,
}

impl CaptureWriter {
    /// Before the first record.
    pub fn new() -> CaptureWriter
        /// The capture's listener writes the head, and then for each entry a record as soon as it was made: a datagram
        /// with both its headers and right checksums, or the IPv6 packet, at the moment of the record that made it. It
        /// does so as a listener. Nothing stands in place of further records where the wire is full.
        /// Leaves open: seconds begin again after 2^32.
        ensures { result.entries ≡ 0 }
    {
        CaptureWriter {
            entries: 0,
            room: RecordRoom::new(),
        }
    }
}

impl Listener for CaptureWriter {
    ghost account = { capture_account };

    ghost news = { λ t H r. record_pieces (step_records r) };

    ghost keeps = { λ w t H. w.entries ≡ length (wire H) };

    ghost grows = { λ t H r. capture_grows H r };

    fn begin<K: Sink>(&self, out: &mut K) -> Result<(), Failed> {
        write_capture_head(out)
    }

    fn hear<K: Sink>(
        &mut self,
        world: &World,
        _event: &Event,
        said: &Record,
        out: &mut K,
    ) -> Result<(), HearFault> {
        write_entries(said.moment, world, self.entries, &mut self.room, out)?;
        self.entries = world.entries();
        Ok(())
    }

    fn end<K: Sink>(&mut self, _world: &World, _out: &mut K) -> Result<(), Failed> {
        Ok(())
    }

    fn break_off<K: Sink>(&self, _out: &mut K) -> Result<(), Failed> {
        Ok(())
    }
}
