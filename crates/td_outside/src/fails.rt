//! The answer of an outside call that failed, and the calls at which a form in memory fails.
ghost use Rattle.std.specs.Prelude.{◌≡◌, ◌≤◌, IfOk, IsErr, ◌↔◌, IsTrue};
ghost use Rattle.td_outside.specs.Causes.{raised, HasCause};
ghost use Rattle.td_outside.specs.Calls.{Calls, fails_next, after_call};

use std::alloc::Global;
use std::marker::Model;
use td_base::NoMemory;

/// The answer of an outside call that failed: its trait's count of faults rose in that call.
#[derive(Clone, Copy, Debug, PartialEq, Eq)]
pub struct Failed;

/// The calls of a form in memory: which of them fail, how many were made, and how many failed. Both numbers stop at
/// the end of `u64`.
#[derive(Drop)]
pub(crate) struct Fails {
    listed: Vec<u64>,
    made: u64,
    faults: u64,
}

impl Model for Fails {
    ghost Value = { Calls };

    ghost view = { λ s. record { listed = s.listed.items; made = s.made; faults = s.faults } };
}

impl Fails {
    pub(crate) fn new(alloc: Global, listed: &[u64]) -> Result<Fails, NoMemory>
        ensures made { IfOk result (λ s. s ≡ record { listed = listed.now; made = 0; faults = 0 }) }
    {
        Ok(Fails {
            listed: Vec::from_slice(alloc, listed)?,
            made: 0,
            faults: 0,
        })
    }

    // Counts a call, which fails where it is listed.
    pub(crate) fn call(&mut self) -> Result<(), Failed>
        ensures cause { HasCause self.old.faults self.new.faults result }
        ensures due { IsErr result ↔ IsTrue (fails_next self.old) }
        ensures counts { self.new ≡ after_call self.old (fails_next self.old) }
    {
        let due = self.listed.contains(&self.made);
        self.made = self.made.saturating_add(1);
        if due {
            return Err(self.fault());
        }
        Ok(())
    }

    // Counts a fault of the call that was counted last.
    pub(crate) fn fault(&mut self) -> Failed
        ensures later { self.old.faults ≤ self.new.faults }
        ensures counts { self.new ≡ record self.old { faults = raised self.old.faults } }
    {
        self.faults = self.faults.saturating_add(1);
        Failed
    }
}
