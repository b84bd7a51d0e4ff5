//! What earlier datagrams license.
ghost use Rattle.std.specs.Prelude.{◌+◌, ◌<◌, ◌^◌, OnOk, IfOk};
ghost use Rattle.td_audit.specs.Datagrams.{datagram};
ghost use Rattle.td_audit.specs.Keys.{HasKey};
ghost use Rattle.td_audit.specs.Left.{licences_left, IsEmptied, Grants, Uses};

use crate::key::{key_of, put_key};
use std::alloc::Global;
use std::collections::BTreeMap;
use td_base::{Ep, NoMemory};

/// How many more times each datagram may come from the server. One that may not come is no entry.
#[derive(Drop)]
pub(crate) struct Licences {
    alloc: Global,
    left: BTreeMap<Vec<u8>, u64>,
    /// Room for the key that is looked up.
    key: Vec<u8>,
    /// Whether the datagram that was licensed last was an entry before. What is one often is one again.
    again: bool,
}

impl Licences {
    pub(crate) fn none(alloc: Global) -> Licences
        ensures { IsEmptied result }
    {
        Licences {
            alloc,
            left: BTreeMap::new(alloc),
            key: Vec::new(alloc),
            again: false,
        }
    }

    /// Licenses a datagram once more.
    pub(crate) fn grant(&mut self, src: Ep, dst: Ep, body: &[u8]) -> Result<(), NoMemory>
        ensures more { OnOk result (licences_left self.old (datagram src dst body.now) + 1 < 2 ^ 64 → Grants self.old self.new (datagram src dst body.now)) }
        ensures fits { HasKey (datagram src dst body.now) }
    {
        // An entry is found without a key of its own.
        if self.again {
            put_key(src, dst, body, &mut self.key)?;
            if let Some(left) = self.left.get_mut(self.key.as_slice()) {
                *left = left.saturating_add(1);
                return Ok(());
            }
        }
        let key = key_of(self.alloc, src, dst, body)?;
        let left = self.left.entry(key)?.or_insert(0);
        self.again = *left > 0;
        *left = left.saturating_add(1);
        Ok(())
    }

    /// Uses one licence of a datagram up, if one is left.
    pub(crate) fn use_up(&mut self, src: Ep, dst: Ep, body: &[u8]) -> Result<bool, NoMemory>
        ensures used { IfOk result (Uses self.old self.new (datagram src dst body.now)) }
        ensures fits { HasKey (datagram src dst body.now) }
    {
        put_key(src, dst, body, &mut self.key)?;
        let left = self.left.get(self.key.as_slice()).copied().unwrap_or(0);
        if left == 0 {
            return Ok(false);
        }
        if left == 1 {
            let _ = self.left.remove(self.key.as_slice());
            return Ok(true);
        }
        if let Some(entry) = self.left.get_mut(self.key.as_slice()) {
            *entry = left - 1;
        }
        Ok(true)
    }
}
