//! A list of bytes that owns its memory.
ghost use Rattle.std.specs.Prelude.{◌≡◌, ℕ, List, IfOk};

use crate::NoMemory;
use std::alloc::Global;
use std::marker::Model;

/// Bytes that are kept, as the content of a datagram. Contracts see the list of them.
#[derive(Drop)]
pub struct Octets {
    bytes: Vec<u8>,
}

impl Model for Octets {
    ghost Value = { List ℕ };

    ghost view = { λ s. s.bytes.items };
}

impl Octets {
    /// A copy of the bytes.
    pub fn new(alloc: Global, bytes: &[u8]) -> Result<Octets, NoMemory>
        /// Bytes that are kept are a copy of those that were given.
        /// Needs: memory.
        ensures copied { IfOk result (λ octets. octets ≡ bytes.now) }
    {
        Ok(Octets {
            bytes: Vec::from_slice(alloc, bytes)?,
        })
    }

    /// The bytes. It takes no memory.
    pub fn as_slice(&self) -> &[u8]
        /// See `Octets::new`: `copied`.
        ensures { result.now ≡ self.now }
    {
        self.bytes.as_slice()
    }
}
