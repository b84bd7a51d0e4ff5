//! Which outputs there were, and which datagrams came.
ghost use Rattle.std.specs.Prelude.{◌≡◌, ◌+◌, ◌<◌, ◌^◌, OnOk, IfOk};
ghost use Rattle.td_audit.specs.Datagrams.{datagram};
ghost use Rattle.td_audit.specs.Keys.{HasKey};
ghost use Rattle.td_explain.specs.Known.{place_listed, places_listed, came_at, drawn_at, ledger_licensing, KnowsNothing, CameOnceMore, DrawnOnceMore};

use crate::answered::Licensing;
use crate::places::{Places, short};
use std::alloc::Global;
use std::collections::BTreeMap;
use std::collections::btree_map::Entry;
use td_audit::key_of;
use td_base::{Ep, NoMemory};

/// How often a datagram came from the server, and the places whose output it is.
#[derive(Drop)]
pub(crate) struct Seen {
    pub came: u64,
    pub drawn: Places,
}

impl Seen {
    /// Of one that hasn't come and is the output of this place alone, or of none.
    fn from_once(once: Option<u32>) -> Seen
        ensures came { result.came ≡ 0 }
        ensures drawn { places_listed result.drawn ≡ place_listed once }
    {
        let drawn = match once {
            Some(place) => Places::Once(place),
            None => Places::Nowhere,
        };
        Seen { came: 0, drawn }
    }

    /// What licenses the datagram if it comes once more; nothing, where it is no output.
    fn licensing(&self) -> Option<Licensing>
        ensures { result ≡ ledger_licensing self.now.came (places_listed self.now.drawn) }
    {
        if let Some(by) = self.drawn.get(self.came) {
            return Some(Licensing::Licensed { by });
        }
        match self.drawn.last() {
            Some(place) => Some(Licensing::Again { place }),
            None => None,
        }
    }
}

/// What is known of each datagram that came from the server, or that is an output. Nearly every output is that of one place,
/// and most wait for long or for good: of such a one there is no more than the place.
#[derive(Drop)]
pub(crate) struct Ledger {
    alloc: Global,
    /// The place of each datagram that is the output of one and hasn't come.
    once: BTreeMap<Vec<u8>, u32>,
    /// What came, or is the output of several places; it is in `once` no more.
    seen: BTreeMap<Vec<u8>, Seen>,
}

impl Ledger {
    pub(crate) fn none(alloc: Global) -> Ledger
        ensures { KnowsNothing result }
    {
        Ledger {
            alloc,
            once: BTreeMap::new(alloc),
            seen: BTreeMap::new(alloc),
        }
    }

    /// Notes that a datagram came from the server, and answers what licenses it.
    pub(crate) fn come(
        &mut self,
        src: Ep,
        dst: Ep,
        body: &[u8],
    ) -> Result<Option<Licensing>, NoMemory>
        ensures licensing { IfOk result (λ licensing. licensing
            ≡ ledger_licensing (came_at self.old (datagram src dst body.now)) (drawn_at self.old (datagram src dst body.now))) }
        ensures known { OnOk result (came_at self.old (datagram src dst body.now) + 1 < 2 ^ 64 → CameOnceMore self.old self.new (datagram src dst body.now)) }
        ensures fits { HasKey (datagram src dst body.now) }
    {
        let key = key_of(self.alloc, src, dst, body)?;
        let once = self.once.remove(key.as_slice());
        let seen = self.seen.entry(key)?.or_insert(Seen::from_once(once));
        let licensing = seen.licensing();
        seen.came = seen.came.saturating_add(1);
        Ok(licensing)
    }

    /// Notes that a datagram is the output of a place.
    pub(crate) fn draw(&mut self, src: Ep, dst: Ep, body: &[u8], place: u64) -> Result<(), NoMemory>
        ensures known { OnOk result (DrawnOnceMore self.old self.new (datagram src dst body.now) place) }
        ensures fits { HasKey (datagram src dst body.now) }
    {
        let place = short(place)?;
        let key = key_of(self.alloc, src, dst, body)?;
        if let Some(seen) = self.seen.get_mut(key.as_slice()) {
            return seen.drawn.push(self.alloc, place);
        }
        match self.once.entry(key)? {
            Entry::Vacant(entry) => {
                entry.insert(place);
                Ok(())
            }
            Entry::Occupied(entry) => {
                let (key, first) = entry.remove_entry();
                let mut seen = Seen::from_once(Some(first));
                seen.drawn.push(self.alloc, place)?;
                self.seen.insert(key, seen)?;
                Ok(())
            }
        }
    }
}
