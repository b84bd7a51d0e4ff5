//! The packets that a record hands over late.
ghost use Rattle.std.specs.Prelude.{◌≡◌, ◌<◌, ◌≤◌, ◌∷◌, [], ◌++◌, length};

use std::marker::Model;

/// The most packets that a record hands over late: as many as a step does.
pub const LATES_MAX: usize = 4;

/// The lengths of at most four packets.
#[derive(Drop)]
pub struct Lates {
    lens: [usize; 4],
    len: usize,
}

impl Model for Lates {
    ghost use Rattle.std.specs.Prelude.{◌≤◌, ℕ, List, take};

    ghost Value = { List ℕ };

    ghost view = { λ m. take m.len m.lens };

    ghost invariant = { λ m. m.len ≤ 4 };
}

impl Lates {
    /// None.
    pub fn new() -> Lates
        /// The lengths of late packets are kept in the order in which they were added.
        /// Needs: fewer than 4 of them.
        ensures { result ≡ [] }
    {
        Lates {
            lens: [0; 4],
            len: 0,
        }
    }

    /// Takes all out. What they were isn't overwritten.
    pub fn clear(&mut self)
        /// See `Lates::new`.
        ensures { self.new ≡ [] }
    {
        self.len = 0;
    }

    /// The lengths in order.
    pub fn as_slice(&self) -> &[usize]
        /// See `Lates::new`.
        ensures value { result.now ≡ self.now }
        /// See `Lates::new`.
        ensures few { length result.now ≤ LATES_MAX }
    {
        &self.lens[..self.len]
    }

    /// Appends a length.
    pub fn push(&mut self, len: usize)
        requires { length self.old < LATES_MAX }
        /// See `Lates::new`.
        ensures { self.new ≡ self.old ++ len ∷ [] }
    {
        self.lens[self.len] = len;
        self.len += 1;
    }
}
