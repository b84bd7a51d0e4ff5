//! What a link in memory keeps of an attempt to send.
ghost use Rattle.std.specs.Prelude.{◌≡◌, ◌≤◌, length, take};
ghost use Rattle.td_outside.specs.Link.{Attempt, attempt};
ghost use Rattle.td_base.specs.declared.datagram.TheConstants.{DATAGRAM_MAX};

use std::marker::Model;
use td_base::{DATAGRAM_MAX, Ep, Side};

/// An attempt to send that a link in memory was asked for, with the answer that it gave.
#[derive(Drop)]
pub struct MemAttempt {
    side: Side,
    to: Ep,
    len: usize,
    buf: [u8; DATAGRAM_MAX],
    sent: bool,
}

impl Model for MemAttempt {
    ghost Value = { Attempt };

    ghost view = { λ s. attempt s.side s.to (take s.len s.buf) s.sent };

    ghost invariant = { λ s. s.len ≤ DATAGRAM_MAX };
}

impl MemAttempt {
    pub(crate) fn new(side: Side, to: Ep, bytes: &[u8], sent: bool) -> MemAttempt
        requires { length bytes.now ≤ DATAGRAM_MAX }
        ensures { result ≡ attempt side to bytes.now sent }
    {
        let mut buf = [0; DATAGRAM_MAX];
        let len = bytes.len();
        buf[..len].copy_from_slice(bytes);
        MemAttempt {
            side,
            to,
            len,
            buf,
            sent,
        }
    }

    /// The side that it was to leave from.
    pub fn side(&self) -> Side
        /// See `MemSink::as_slice`.
        ensures { result ≡ self.now.side }
    {
        self.side
    }

    /// The endpoint that it was to go to.
    pub fn to(&self) -> Ep
        /// See `MemSink::as_slice`.
        ensures { result ≡ self.now.to }
    {
        self.to
    }

    /// The bytes of the datagram.
    pub fn bytes(&self) -> &[u8]
        /// See `MemSink::as_slice`.
        ensures { result.now ≡ self.now.bytes }
    {
        &self.buf[..self.len]
    }

    /// Whether the answer was Ok.
    pub fn is_sent(&self) -> bool
        /// See `MemSink::as_slice`.
        ensures { result ≡ self.now.sent }
    {
        self.sent
    }
}
