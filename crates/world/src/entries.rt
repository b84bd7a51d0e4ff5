//! What was sent, with its bytes.
ghost use Rattle.std.specs.Prelude.{◌≡◌, ◌++◌, ◌∷◌, [], length, map, take, slice_get, option_map, IfOk, OnOk, OnErr};
ghost use Rattle.world.specs.Entries.{item_at, kept_entry};
ghost use Rattle.world.specs.WireEntry.{item_lent};

use crate::wire::ENTRIES_MAX;
use crate::wire_entry::WireEntry;
use lab_nodes::lend_part;
use std::marker::Model;
use td_base::{Ep, NoMemory, Span};

/// What was sent, whose bytes stand somewhere in those of all entries.
#[derive(Clone, Copy, Debug)]
pub enum Entry {
    /// A datagram.
    Udp { src: Ep, dst: Ep, span: Span },
    /// An IPv6 packet, for the relay of that number, or for whoever has its destination.
    Six { relay: Option<u16>, span: Span },
}

/// Everything that was sent, in order. The bytes of all entries stand one after another, so that none has memory of its
/// own.
#[derive(Drop)]
pub struct Entries {
    list: Vec<Entry>,
    bytes: Vec<u8>,
}

// No clause sees a field that nothing reads: so they are their parts, and no byte more.
const _: () = prove_eq!(size_of::<Entries>(), size_of::<(Vec<Entry>, Vec<u8>)>());

impl Model for Entries {
    ghost use Rattle.std.specs.Prelude.{List, length, map};
    ghost use Rattle.std.specs.List.{AllByRecursion};
    ghost use Rattle.history.specs.Full.{Item};
    ghost use Rattle.world.specs.Entries.{item_at, IsInside};

    ghost Value = { List Item };

    ghost view = { λ s. map (item_at s.bytes.items) s.list.items };

    ghost invariant = { λ s. AllByRecursion (IsInside (length s.bytes.items)) s.list.items };
}

/// How many bytes of entries there is room for before more memory is taken.
const BYTES_AT_FIRST: usize = 64 * ENTRIES_MAX;

impl Entries {
    /// Nothing was sent. There is room for all entries, so that none is copied where their list grows: memory that nothing
    /// touches costs nothing. The memory of `room` is that of their bytes.
    pub fn in_room(room: Vec<u8>) -> Result<Entries, NoMemory>
        ensures { IfOk result (λ entries. entries ≡ []) }
    {
        let list = Vec::with_capacity(*room.allocator(), ENTRIES_MAX)?;
        let mut bytes = room;
        bytes.clear();
        bytes.reserve(BYTES_AT_FIRST)?;
        Ok(Entries { list, bytes })
    }

    /// How many there are.
    pub fn len(&self) -> usize
        ensures { result ≡ length self.now }
    {
        self.list.len()
    }

    /// The entry of a number, if there is one.
    pub fn get(&self, number: usize) -> Option<WireEntry<'_>>
        ensures { option_map item_lent result ≡ slice_get self.now number }
    {
        lend(self.list.as_slice(), self.bytes.as_slice(), number)
    }

    /// Appends an entry, with a copy of its bytes. Where memory is wanting for the entry, its bytes stay, and are those of
    /// none.
    pub fn push(&mut self, entry: WireEntry<'_>) -> Result<(), NoMemory>
        ensures ok { OnOk result (self.new ≡ self.old ++ item_lent entry.entry ∷ []) }
        ensures err { OnErr result (self.new ≡ self.old) }
    {
        let at = self.bytes.len();
        self.bytes.extend_from_slice(entry.bytes())?;
        self.list.push(kept_entry(entry, at))?;
        Ok(())
    }

    /// Takes away all but the first `len`.
    pub fn truncate(&mut self, len: usize)
        ensures { self.new ≡ take len self.old }
    {
        self.list.truncate(len);
    }
}

/// What is kept of an entry whose bytes stand at a place.
fn kept_entry(entry: WireEntry<'_>, at: usize) -> Entry
    ensures { result ≡ kept_entry (item_lent entry.entry) at }
{
    match entry {
        WireEntry::Udp { src, dst, bytes } => {
            let span = Span {
                at,
                len: bytes.len(),
            };
            Entry::Udp { src, dst, span }
        }
        WireEntry::Six { relay, bytes } => {
            let span = Span {
                at,
                len: bytes.len(),
            };
            Entry::Six { relay, span }
        }
    }
}

/// What an entry lends.
fn lend_entry(entry: Entry, bytes: &[u8]) -> WireEntry<'_>
    ensures { item_lent result ≡ item_at bytes.now entry }
{
    match entry {
        Entry::Udp { src, dst, span } => WireEntry::Udp {
            src,
            dst,
            bytes: lend_part(bytes, span),
        },
        Entry::Six { relay, span } => WireEntry::Six {
            relay,
            bytes: lend_part(bytes, span),
        },
    }
}

/// Lends the entry of a number.
fn lend<'a>(list: &[Entry], bytes: &'a [u8], number: usize) -> Option<WireEntry<'a>>
    ensures { option_map item_lent result ≡ slice_get (map (item_at bytes.now) list.now) number }
{
    let entry = list.get(number)?;
    Some(lend_entry(*entry, bytes))
}
