//! The place of one packet that a step hands over late.
ghost use Rattle.std.specs.Prelude.{◌≡◌, ◌≤◌, length};

use std::marker::Model;

/// The most bytes of a packet that is handed over late: the IPv6 MTU of a Teredo link (RFC 4380, section 5.1.2).
pub const LATE_LEN_MAX: usize = 1280;

/// A packet that had been held, with room for the longest one.
#[derive(Drop)]
pub(crate) struct Late {
    len: usize,
    buf: [u8; LATE_LEN_MAX],
}

impl Model for Late {
    ghost use Rattle.std.specs.Prelude.{◌≤◌, ℕ, List, take};
    ghost use Rattle.teredo_node.specs.declared.late.TheConstants.{LATE_LEN_MAX};

    ghost Value = { List ℕ };

    ghost view = { λ s. take s.len s.buf };

    ghost invariant = { λ s. s.len ≤ LATE_LEN_MAX };
}

impl Late {
    pub(crate) fn new() -> Late {
        Late {
            len: 0,
            buf: [0; LATE_LEN_MAX],
        }
    }

    pub(crate) fn bytes(&self) -> &[u8]
        ensures bytes { result.now ≡ self.now }
        ensures short { length result.now ≤ LATE_LEN_MAX }
    {
        &self.buf[..self.len]
    }

    pub(crate) fn fill(&mut self, bytes: &[u8])
        requires { length bytes.now ≤ LATE_LEN_MAX }
        ensures { self.new ≡ bytes.now }
    {
        self.len = bytes.len();
        self.buf[..self.len].copy_from_slice(bytes);
    }
}
