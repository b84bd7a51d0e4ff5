//! The marks of a record.
ghost use Rattle.std.specs.Prelude.{◌≡◌, ◌<◌, ◌≤◌, ◌∷◌, [], ◌++◌, length};

use crate::mark::Mark;
use std::marker::Model;
use td_base::{Ep, Ip4};

/// The most marks of a record: one for each send of a step, and one for a packet to the IPv6 side.
pub const MARKS_MAX: usize = 9;

/// At most nine marks.
#[derive(Drop)]
pub struct Marks {
    marks: [Mark; 9],
    len: usize,
}

impl Model for Marks {
    ghost use Rattle.std.specs.Prelude.{◌≤◌, List, take};
    ghost use Rattle.history.specs.declared.mark.Mark.{Mark};

    ghost Value = { List Mark };

    ghost view = { λ m. take m.len m.marks };

    ghost invariant = { λ m. m.len ≤ 9 };
}

const NOBODY: Ep = Ep {
    ip: Ip4([0; 4]),
    port: 0,
};

const UNUSED: Mark = Mark::Udp {
    number: 0,
    src: NOBODY,
    dst: NOBODY,
    len: 0,
};

impl Marks {
    /// No marks.
    pub fn new() -> Marks
        /// Marks are kept in the order in which they were added.
        /// Needs: fewer than 9 marks.
        ensures { result ≡ [] }
    {
        Marks {
            marks: [UNUSED; 9],
            len: 0,
        }
    }

    /// Takes all out. What they were isn't overwritten.
    pub fn clear(&mut self)
        /// See `Marks::new`.
        ensures { self.new ≡ [] }
    {
        self.len = 0;
    }

    /// The marks in order.
    pub fn as_slice(&self) -> &[Mark]
        /// See `Marks::new`.
        ensures value { result.now ≡ self.now }
        /// See `Marks::new`.
        ensures few { length result.now ≤ MARKS_MAX }
    {
        &self.marks[..self.len]
    }

    /// Appends a mark.
    pub fn push(&mut self, mark: Mark)
        requires { length self.old < MARKS_MAX }
        /// See `Marks::new`.
        ensures { self.new ≡ self.old ++ mark ∷ [] }
    {
        self.marks[self.len] = mark;
        self.len += 1;
    }
}
