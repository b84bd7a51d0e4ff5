//! A link that says on standard error what a client asks, where a terminal shows that.
//!
//! # What it does not know
//!
//! What a question holds, and what is answered: it counts the questions to either address, by which their phase is known.
ghost use Rattle.std.specs.Prelude.{◌≡◌, ◌≤◌, length, IfOk, MatchResult, is_ok};

use qualify::{SOLICITATION_GAP_MS, SOLICITATIONS_MAX};
use std::io::IsTerminal;
use td_base::{DATAGRAM_MAX, Ep, Ip4, Side};
use td_outside::{Arrival, Failed, Link};

/// The questions of a client (RFC 4380, section 5.2.1): whom it asked first, how often, and how often another one.
#[derive(Drop)]
struct Questions {
    first: Option<Ep>,
    to_first: usize,
    to_other: usize,
}

impl Questions {
    // The phase of the next question, and how many tries are left behind it. The first address is asked as a cone first.
    fn next(&mut self, to: Ep) -> (&'static str, usize) {
        let first = self.first.unwrap_or(to);
        self.first = Some(first);
        if to != first {
            self.to_other = self.to_other.saturating_add(1);
            return ("Secondary", SOLICITATIONS_MAX.saturating_sub(self.to_other));
        }
        self.to_first = self.to_first.saturating_add(1);
        if self.to_first <= SOLICITATIONS_MAX {
            return ("Cone", SOLICITATIONS_MAX.saturating_sub(self.to_first));
        }
        (
            "Restricted",
            (2 * SOLICITATIONS_MAX).saturating_sub(self.to_first),
        )
    }

    fn tell(&mut self, rt: &HostRuntime, to: Ep) {
        let (phase, left) = self.next(to);
        let seconds = SOLICITATION_GAP_MS / 1_000;
        let _ = eprintln!(rt;
            "teredo_cli: phase {phase}: asking, which takes {seconds} seconds at most; tries left: {left}"
        );
    }
}

/// Passes each call on to the link that it is made over. A line goes before each question of a client.
#[derive(Drop)]
pub struct Asking<'a, L: Drop> {
    rt: &'a HostRuntime,
    over: L,
    is_shown: bool,
    questions: Questions,
}

impl<'a, L: Drop> Asking<'a, L> {
    /// A link over this one, which says nothing before it is opened as a client's.
    pub fn new(rt: &'a HostRuntime, over: L) -> Self {
        Asking {
            rt,
            over,
            is_shown: false,
            questions: Questions {
                first: None,
                to_first: 0,
                to_other: 0,
            },
        }
    }
}

impl<L: Link + Drop> Link for Asking<'_, L> {
    ghost state = { λ s. L.state s.over };

    fn open(&mut self, primary: Ip4, secondary: Ip4) -> Result<(), Failed> {
        self.over.open(primary, secondary)
    }

    fn open_client(&mut self, inside: Ip4) -> Result<Ep, Failed> {
        self.is_shown = self.rt.stderr().is_terminal();
        self.over.open_client(inside)
    }

    fn recv(&mut self, buf: &mut [u8; DATAGRAM_MAX]) -> Result<Arrival, Failed> {
        self.over.recv(buf)
    }

    fn send(&mut self, side: Side, to: Ep, bytes: &[u8]) -> Result<(), Failed> {
        if self.is_shown {
            self.questions.tell(self.rt, to);
        }
        self.over.send(side, to, bytes)
    }
}
