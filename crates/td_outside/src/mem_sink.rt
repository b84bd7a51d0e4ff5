//! A sink in memory.
ghost use Rattle.std.specs.Prelude.{◌≡◌, ◌≤◌, ◌<◌, ◌+◌, ◌⊎◌, ◌↔◌, ℕ, List, [], ◌++◌, Option, Some, None, length, IsErr};
ghost use Rattle.std.specs.Prelude.{IsTrue, IfOk, if◌then◌else◌, vec_capacity};
ghost use Rattle.td_outside.specs.Causes.{HasCause};
ghost use Rattle.td_outside.specs.Calls.{fails_next, after_call};
ghost use Rattle.td_outside.specs.Streams.{Filled, refuses};

use crate::fails::Fails;
use crate::{Failed, Sink};
use std::alloc::Global;
use std::marker::Model;
use td_base::NoMemory;

/// A sink with room for a fixed number of bytes. Its `write` takes the whole piece, and no memory.
#[derive(Drop)]
pub struct MemSink {
    held: Vec<u8>,
    room: usize,
    fails: Fails,
}

impl Model for MemSink {
    ghost Value = { Filled };

    ghost view = { λ s. record { held = s.held.items; room = s.room; calls = s.fails } };

    ghost invariant = { λ s. (s.room ≤ vec_capacity s.held) × (length s.held.items ≤ s.room) };
}

impl MemSink {
    /// An empty sink. `fails` are the numbers of the calls of `write` that fail, from 0.
    pub fn new(alloc: Global, room: usize, fails: &[u64]) -> Result<MemSink, NoMemory>
        /// See `MemSource::new`: `made`.
        ensures made { IfOk result (λ s. s ≡ record {
          held = [];
          room = room;
          calls = record { listed = fails.now; made = 0; faults = 0 };
        }) }
    {
        let held = Vec::with_capacity(alloc, room)?;
        let fails = Fails::new(alloc, fails)?;
        Ok(MemSink { held, room, fails })
    }

    /// The bytes that it holds.
    pub fn as_slice(&self) -> &[u8]
        /// What a sink holds and what a link keeps of its attempts is lent; of an attempt its side, its destination,
        /// its bytes and its answer.
        /// Needs: for the attempts, that there was room for each.
        ensures { result.now ≡ self.now.held }
    {
        self.held.as_slice()
    }
}

impl Sink for MemSink {
    ghost state = { λ s. record { holds = Some s.held; pieces = None; faults = s.calls.faults } };

    fn write(&mut self, piece: &[u8]) -> Result<usize, Failed>
        ensures cause { HasCause self.old.calls.faults self.new.calls.faults result }
        /// See `MemSource::open`: `due`.
        ensures due { IsErr result ↔ IsTrue (refuses self.old (length piece.now)) }
        ensures whole { IfOk result (λ n. n ≡ length piece.now) }
        ensures state { self.new ≡ record self.old {
          held = if refuses self.old (length piece.now) then self.old.held else self.old.held ++ piece.now;
          calls = after_call self.old.calls (refuses self.old (length piece.now));
        } }
    {
        self.fails.call()?;
        if piece.len() > self.room - self.held.len() {
            return Err(self.fails.fault());
        }
        match self.held.extend_from_slice(piece) {
            Ok(()) => Ok(piece.len()),
            Err(_) => unreachable!(),
        }
    }
}
