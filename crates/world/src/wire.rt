//! The wire: everything that was sent.
ghost use Rattle.std.specs.Prelude.{◌≡◌, ◌<◌, ◌≤◌, ◌∷◌, [], ℕ, true, false, length, set, get_or, slice_get, option_map, IfOk, OnOk, OnErr, IfSome, IfNone};
ghost use Rattle.history.specs.Full.{bytes_of, sent};
ghost use Rattle.history.specs.declared.mark_list.TheConstants.{MARKS_MAX};
ghost use Rattle.legal.specs.Emit.{marked};
ghost use Rattle.td_base.specs.declared.datagram.TheConstants.{DATAGRAM_MAX};
ghost use Rattle.td_base.specs.declared.side.Side.{Side};
ghost use Rattle.world.specs.Egress.{source_or_loss};
ghost use Rattle.world.specs.Wire.{WireState, no_wire, with_items, front_of, Puts};
ghost use Rattle.world.specs.WireEntry.{item_lent};

use crate::egress::Egress;
use crate::entries::Entries;
use crate::wire_entry::WireEntry;
use history::{Mark, Marks, Stop};
use std::marker::Model;
use td_base::{Ep, NoMemory, Octets};

/// The most entries of a wire.
pub const ENTRIES_MAX: usize = 65_536;

/// Everything that was sent, in order, numbered from 0, and which of it was delivered. Entries never go away.
#[derive(Drop)]
pub struct Wire {
    entries: Entries,
    delivered: Vec<bool>,
    // all entries before it were delivered
    low: usize,
}

// No clause sees a field that nothing reads: so it is its parts, and no byte more.
const _: () = prove_eq!(size_of::<Wire>(), size_of::<(Entries, Vec<bool>, usize)>());

impl Model for Wire {
    ghost use Rattle.world.specs.Wire.{WireState, IsWire};

    ghost Value = { WireState };

    ghost view = { λ w. record { items = w.entries; done = w.delivered.items } };

    ghost invariant = { λ w. IsWire w.entries w.delivered.items w.low };
}

impl Wire {
    /// Nothing was sent. The memory of `room` is that of the bytes that will be.
    pub fn in_room(room: Vec<u8>) -> Result<Wire, NoMemory>
        ensures { IfOk result (λ wire. wire ≡ no_wire) }
    {
        let delivered = Vec::with_capacity(*room.allocator(), ENTRIES_MAX)?;
        let entries = Entries::in_room(room)?;
        Ok(Wire {
            entries,
            delivered,
            low: 0,
        })
    }

    /// How many entries there are.
    pub fn len(&self) -> usize
        ensures count { result ≡ length self.now.items }
        ensures each { result ≡ length self.now.done }
        ensures most { result ≤ ENTRIES_MAX }
    {
        self.entries.len()
    }

    /// The entry of a number, if there is one.
    pub fn get(&self, number: usize) -> Option<WireEntry<'_>>
        ensures lent { option_map item_lent result ≡ slice_get self.now.items number }
        ensures within { IfSome result (λ _. number < length self.now.items) }
        ensures marked { IfSome result (λ _. number < length self.now.done) }
        ensures short { IfSome result (λ e. length (bytes_of (item_lent e)) ≤ DATAGRAM_MAX) }
    {
        self.entries.get(number)
    }

    /// Whether the entry of a number was delivered.
    pub fn was_delivered(&self, number: usize) -> bool
        ensures { result ≡ get_or self.now.done number false }
    {
        number < self.delivered.len() && self.delivered[number]
    }

    /// A copy of some bytes, in memory from where the wire takes its own.
    pub fn copy_of(&self, bytes: &[u8]) -> Result<Octets, NoMemory>
        ensures copied { IfOk result (λ copied. copied ≡ bytes.now) }
    {
        Octets::new(*self.delivered.allocator(), bytes)
    }

    /// Appends an entry.
    fn push(&mut self, entry: WireEntry<'_>) -> Result<(), NoMemory>
        requires room { length self.old.items < ENTRIES_MAX }
        requires short { length (bytes_of (item_lent entry)) ≤ DATAGRAM_MAX }
        ensures ok { OnOk result (self.new ≡ with_items self.old (item_lent entry.entry ∷ [])) }
        ensures err { OnErr result (self.new ≡ self.old) }
    {
        self.delivered.push(false)?;
        if self.entries.push(entry).is_err() {
            let _ = self.delivered.pop();
            return Err(NoMemory);
        }
        Ok(())
    }

    /// Puts a copy of an entry on the wire, and its mark behind these: the one door, and the one test for room.
    #[inline(always)]
    pub fn put(&mut self, entry: WireEntry<'_>, marks: &mut Marks) -> Result<(), Stop>
        requires short { length (bytes_of (item_lent entry)) ≤ DATAGRAM_MAX }
        requires few { length marks.old < MARKS_MAX }
        ensures puts { Puts self.old self.new marks.old marks.new (sent (item_lent entry.entry) ∷ []) result }
        ensures err { OnErr result ((self.new ≡ self.old) × (marks.new ≡ marks.old)) }
    {
        if self.entries.len() >= ENTRIES_MAX {
            return Err(Stop::WireFull);
        }
        let mark = entry.mark(self.entries.len() as u32);
        self.push(entry)?;
        marks.push(mark);
        Ok(())
    }

    /// Puts a datagram with a copy of these bytes on the wire, where it leaves, and its mark behind these. One that is
    /// lost has a mark alone.
    pub fn send(
        &mut self,
        egress: Egress,
        dst: Ep,
        bytes: &[u8],
        marks: &mut Marks,
    ) -> Result<(), Stop>
        requires short { length bytes.now ≤ DATAGRAM_MAX }
        requires few { length marks.old < MARKS_MAX }
        ensures puts { (side : Side) → Puts self.old self.new marks.old marks.new
            (marked (record { side = side; to = dst; bytes = bytes.now }) (source_or_loss egress) ∷ []) result }
        ensures err { OnErr result ((self.new ≡ self.old) × (marks.new ≡ marks.old)) }
    {
        let len = bytes.len();
        match egress {
            Egress::Leaves { src } => {
                let entry = WireEntry::Udp { src, dst, bytes };
                self.put(entry, marks)
            }
            Egress::Lost { why } => {
                marks.push(Mark::Lost { why, dst, len });
                Ok(())
            }
        }
    }

    /// Takes away all but the first `len` entries.
    pub fn cut(&mut self, len: usize)
        requires { len ≤ length self.old.items }
        ensures { self.new ≡ front_of len self.old }
    {
        self.entries.truncate(len);
        self.delivered.truncate(len);
        self.low = self.low.min(len);
    }

    /// Remembers that an entry was delivered, if there is one of the number.
    pub fn set_delivered(&mut self, number: usize)
        ensures { self.new ≡ record self.old { done = set self.old.done number true } }
    {
        if number >= self.delivered.len() {
            return;
        }
        self.delivered[number] = true;
    }

    /// The least-numbered entry that was never delivered.
    pub fn first_undelivered(&mut self) -> Option<usize>
        ensures same { self.new ≡ self.old }
        ensures few { IfSome result (λ n. n < ENTRIES_MAX) }
        ensures found { IfSome result (λ n. (n < length self.old.items) × (get_or self.old.done n false ≡ false)
            × ((i : ℕ) → i < n → get_or self.old.done i false ≡ true)) }
        ensures none { IfNone result ((i : ℕ) → i < length self.old.items → get_or self.old.done i false ≡ true) }
    {
        while self.low < self.delivered.len() {
            if !self.delivered[self.low] {
                return Some(self.low);
            }
            self.low += 1;
        }
        None
    }
}
