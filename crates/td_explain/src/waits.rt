//! Which places wait while each datagram from the server was licensed.
ghost use Rattle.std.specs.Prelude.{◌≡◌, None, IfOk, IfSome, IfNone, OnOk};
ghost use Rattle.td_audit.specs.Datagrams.{datagram};
ghost use Rattle.td_audit.specs.Keys.{HasKey};
ghost use Rattle.td_explain.specs.Waits.{ends_waiting, NothingWaits, TakesFirst, Queues};

use crate::links::Links;
use crate::places::short;
use std::alloc::Global;
use std::collections::BTreeMap;
use std::collections::btree_map::Entry;
use td_audit::key_of;
use td_base::{Ep, NoMemory};

/// The first and the last of the places that wait with the same output.
#[derive(Clone, Copy, Debug)]
pub(crate) struct Ends {
    pub first: u32,
    pub last: u32,
}

/// For each datagram that may come yet the places that license it, the earliest first. What may not come is no entry. An
/// entry takes what one of the audit takes, which is a number.
#[derive(Drop)]
pub(crate) struct Waits {
    pub alloc: Global,
    ends: BTreeMap<Vec<u8>, Ends>,
    links: Links,
}

impl Waits {
    pub(crate) fn none(alloc: Global) -> Waits
        ensures { NothingWaits result }
    {
        Waits {
            alloc,
            ends: BTreeMap::new(alloc),
            links: Links::none(alloc),
        }
    }

    /// The place that licenses a datagram, which waits no more; nothing, where none waits.
    pub(crate) fn take(&mut self, src: Ep, dst: Ep, body: &[u8]) -> Result<Option<u64>, NoMemory>
        ensures taken { IfOk result (λ place. IfSome place (λ by. TakesFirst self.old self.new (datagram src dst body.now) by)) }
        ensures none { IfOk result (λ place. IfNone place (ends_waiting self.old (datagram src dst body.now) ≡ None)) }
        ensures fits { HasKey (datagram src dst body.now) }
    {
        let key = key_of(self.alloc, src, dst, body)?;
        let Some(ends) = self.ends.get(key.as_slice()).copied() else {
            return Ok(None);
        };
        let by = u64::from(ends.first);
        let next = self.links.after(ends.first);
        if next == 0 {
            let _ = self.ends.remove(key.as_slice());
            return Ok(Some(by));
        }
        let left = Ends {
            first: next,
            last: ends.last,
        };
        self.ends.insert(key, left)?;
        Ok(Some(by))
    }

    /// Notes that a datagram is the output of a place.
    pub(crate) fn draw(&mut self, src: Ep, dst: Ep, body: &[u8], place: u64) -> Result<(), NoMemory>
        ensures drawn { OnOk result (Queues self.old self.new (datagram src dst body.now) place) }
        ensures fits { HasKey (datagram src dst body.now) }
    {
        let place = short(place)?;
        let key = key_of(self.alloc, src, dst, body)?;
        match self.ends.entry(key)? {
            Entry::Vacant(entry) => {
                entry.insert(Ends {
                    first: place,
                    last: place,
                });
                Ok(())
            }
            Entry::Occupied(entry) => {
                let ends = entry.into_mut();
                self.links.put(ends.last, place)?;
                ends.last = place;
                Ok(())
            }
        }
    }
}
