//! A source in memory.
ghost use Rattle.std.specs.Prelude.{◌≡◌, ◌≤◌, ◌<◌, ◌+◌, ◌-◌, ◌↔◌, ℕ, List, [], ◌++◌, Option, Some, None, Ok, Err};
ghost use Rattle.std.specs.Prelude.{length, drop, take, IsErr, IsTrue, IfOk, if◌then◌else◌, string_bytes};
ghost use Rattle.td_outside.specs.Causes.{HasCause};
ghost use Rattle.td_outside.specs.Calls.{fails_next, after_call};
ghost use Rattle.td_outside.specs.Streams.{OneName, named_bytes, told_by, given_by};

use crate::fails::Fails;
use crate::{Failed, Source};
use std::alloc::Global;
use std::marker::Model;
use td_base::NoMemory;

/// A source whose one name stands for the bytes that it was made with, and every other name for none.
#[derive(Drop)]
pub struct MemSource {
    name: String,
    bytes: Vec<u8>,
    // where the rest begins that is left of what is open
    at: usize,
    fails: Fails,
}

impl Model for MemSource {
    ghost Value = { OneName };

    ghost view = { λ s. record {
      name = string_bytes s.name;
      bytes = s.bytes.items;
      left = drop s.at s.bytes.items;
      calls = s.fails;
    } };

    ghost invariant = { λ s. s.at ≤ length s.bytes.items };
}

impl MemSource {
    /// A source with nothing open. `fails` are the numbers of the calls of `open` and `read` that fail, from 0.
    pub fn new(
        alloc: Global,
        name: &str,
        bytes: &[u8],
        fails: &[u64],
    ) -> Result<MemSource, NoMemory>
        /// The forms in memory tell their bytes and arrivals; a link tells its attempts while it had room for each, and
        /// what it took while the calls can be counted.
        /// Needs: memory, in `new`.
        /// Leaves open: what they were asked.
        ensures made { IfOk result (λ s. s ≡ record {
          name = name.now;
          bytes = bytes.now;
          left = [];
          calls = record { listed = fails.now; made = 0; faults = 0 };
        }) }
    {
        let name = String::from_str(alloc, name)?;
        let bytes = Vec::from_slice(alloc, bytes)?;
        let at = bytes.len();
        let fails = Fails::new(alloc, fails)?;
        Ok(MemSource {
            name,
            bytes,
            at,
            fails,
        })
    }
}

impl Source for MemSource {
    ghost state = { λ s. record {
      stands_for = told_by s;
      left = Some s.left;
      openings = None;
      taken = None;
      faults = s.calls.faults;
    } };

    fn open(&mut self, name: &str) -> Result<(), Failed>
        ensures cause { HasCause self.old.calls.faults self.new.calls.faults result }
        /// The forms in memory fail at exactly the calls that are listed, and where a piece is longer than a sink's
        /// room; a link in memory opens.
        /// Needs: memory, in `new`.
        ensures due { IsErr result ↔ IsTrue (fails_next self.old.calls) }
        ensures state { self.new ≡ record self.old {
          left = if fails_next self.old.calls then [] else named_bytes self.old name.now;
          calls = after_call self.old.calls (fails_next self.old.calls);
        } }
    {
        self.at = self.bytes.len();
        self.fails.call()?;
        if name == self.name.as_str() {
            self.at = 0;
        }
        Ok(())
    }

    fn read(&mut self, buf: &mut [u8]) -> Result<usize, Failed>
        requires { 0 < length buf.old }
        ensures cause { HasCause self.old.calls.faults self.new.calls.faults result }
        /// See `MemSource::open`: `due`.
        ensures due { IsErr result ↔ IsTrue (fails_next self.old.calls) }
        ensures count { IfOk result (λ n. n ≡ length (given_by self.old (length buf.old))) }
        ensures bytes { buf.new ≡ given_by self.old (length buf.old) ++ drop (length (given_by self.old (length buf.old))) buf.old }
        ensures state { self.new ≡ record self.old {
          left = drop (length (given_by self.old (length buf.old))) self.old.left;
          calls = after_call self.old.calls (fails_next self.old.calls);
        } }
    {
        self.fails.call()?;
        let count = buf.len().min(self.bytes.len() - self.at);
        buf[..count].copy_from_slice(&self.bytes[self.at..self.at + count]);
        self.at += count;
        Ok(count)
    }
}
