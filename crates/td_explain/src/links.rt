//! Which place waits behind another one.
ghost use Rattle.std.specs.Prelude.{◌≡◌, ◌≢◌, ◌<◌, ℕ, vec_len, OnOk};
ghost use Rattle.td_explain.specs.Waits.{link_at};

use std::alloc::Global;
use td_base::NoMemory;

/// For each place the next one that waits with the same output, up to the last place that has one: four bytes a place. It is
/// 0 where there is none, since a later place is never 0.
#[derive(Drop)]
pub(crate) struct Links {
    next: Vec<u32>,
}

impl Links {
    pub(crate) fn none(alloc: Global) -> Links
        ensures { (place : ℕ) → link_at result place ≡ 0 }
    {
        Links {
            next: Vec::new(alloc),
        }
    }

    /// The place behind this one, or 0.
    pub(crate) fn after(&self, place: u32) -> u32
        ensures { result ≡ link_at self.now place }
    {
        self.next
            .as_slice()
            .get(place as usize)
            .copied()
            .unwrap_or(0)
    }

    /// Makes room for the place behind this one.
    fn reach(&mut self, place: usize) -> Result<(), NoMemory>
        ensures links { (other : ℕ) → link_at self.new other ≡ link_at self.old other }
        ensures room { OnOk result (place < vec_len self.new.next) }
    {
        'room: while self.next.len() <= place {
            self.next.push(0)?;
        }
        Ok(())
    }

    /// Has one place behind another one.
    pub(crate) fn put(&mut self, place: u32, next: u32) -> Result<(), NoMemory>
        ensures here { OnOk result (link_at self.new place ≡ next) }
        ensures others { OnOk result ((other : ℕ) → other ≢ place → link_at self.new other ≡ link_at self.old other) }
    {
        let place = place as usize;
        self.reach(place)?;
        self.next[place] = next;
        Ok(())
    }
}
