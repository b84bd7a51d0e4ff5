//! The totals of a run.
ghost use Rattle.std.specs.Prelude.{◌≡◌, ◌∷◌, [], List, count_by};
ghost use Rattle.history.specs.Full.{Full};
ghost use Rattle.history.specs.Records.{record_of};
ghost use Rattle.history.specs.Telling.{is_kept, is_delivery, is_entry, IsTold};
ghost use Rattle.report.specs.Totals.{totals_line};

use crate::fields::put_number;
use history::{Act, Mark, Record};
use td_base::LineBuf;
use teredo_node::Fate;

/// Sums over the records of a run.
#[derive(Clone, Copy, Debug, PartialEq, Eq)]
pub struct Sums {
    pub records: u64,
    pub entries: u64,
    /// Deliveries of entries that exist.
    pub delivered: u64,
    /// Packets handed to clients' hosts, at once and late.
    pub handed: u64,
    /// Packets kept by native hosts.
    pub kept: u64,
    pub dropped: u64,
}

/// Whether a record kept a packet.
fn is_kept(fate: Fate) -> bool
    ensures { result ≡ is_kept fate }
{
    matches!(fate, Fate::Kept)
}

/// Whether a mark is that of an entry.
fn is_entry(mark: &Mark) -> bool
    ensures { result ≡ is_entry mark.now }
{
    !matches!(*mark, Mark::Lost { .. })
}

/// Whether a record delivered an entry: its act says so, and the entry was there.
fn is_delivery(act: Act, fate: Fate) -> bool
    ensures { result ≡ is_delivery act fate }
{
    match act {
        Act::Deliver { number: _ } => fate != Fate::NoEntry,
        Act::Tick | Act::Copy { number: _ } | Act::Plain { verb: _ } => false,
    }
}

/// How many of the marks are those of entries.
fn entries_in(marks: &[Mark]) -> usize
    ensures { result ≡ count_by is_entry marks.now }
{
    marks.iter().filter(|mark| is_entry(mark)).count()
}

impl Sums {
    ghost use Rattle.report.specs.Totals.{sums_of, added, IsSmall, IsFew};

    /// No records.
    pub fn new() -> Sums
        /// The totals are sums over the records that were added.
        /// Needs: sums below 2^64 - 9; each record tells of deliveries what its full record says, which `World::step`
        /// gives.
        ensures sums { result ≡ sums_of [] }
        /// See `sums`.
        ensures few { IsFew result }
    {
        Sums {
            records: 0,
            entries: 0,
            delivered: 0,
            handed: 0,
            kept: 0,
            dropped: 0,
        }
    }

    /// Adds a record.
    pub fn add(&mut self, r: &Record)
        requires { IsSmall self.old }
        /// See `Sums::new`: `sums`.
        ensures added { self.new ≡ added self.old r.now }
        /// See `Sums::new`: `sums`.
        ensures few { IsFew self.old → IsFew self.new }
        /// See `Sums::new`: `sums`.
        ensures sums { (H : List Full) (next : Full) → self.old ≡ sums_of H → r.now ≡ record_of next → IsTold next → self.new ≡ sums_of (next ∷ H) }
    {
        self.records += 1;
        self.entries += entries_in(r.marks.as_slice()) as u64;
        self.delivered += u64::from(is_delivery(r.act, r.fate));
        self.handed += u64::from(r.handed.is_some()) + r.late.as_slice().len() as u64;
        self.kept += u64::from(is_kept(r.fate));
        self.dropped += u64::from(r.fate.is_drop());
    }
}

/// Puts the totals line in place of what the buffer held.
pub fn summary(s: &Sums, out: &mut LineBuf)
    /// The totals line is the text of the sums, in place of what the buffer held.
    ensures { out.new ≡ totals_line s.now }
{
    out.clear();
    out.push_text(b"total records ");
    put_number(s.records, out);
    out.push_text(b" entries ");
    put_number(s.entries, out);
    out.push_text(b" delivered ");
    put_number(s.delivered, out);
    out.push_text(b" handed ");
    put_number(s.handed, out);
    out.push_text(b" kept ");
    put_number(s.kept, out);
    out.push_text(b" dropped ");
    put_number(s.dropped, out);
    out.push_text(b"\n");
}
