//! Two sides that datagrams come to and go from.
ghost use Rattle.std.specs.Prelude.{◌≡◌, ◌≤◌, length, is_ok, IsOk, IfOk, OnOk, MatchResult};
ghost use Rattle.td_outside.specs.Causes.{HasCause};
ghost use Rattle.td_outside.specs.Link.{LinkState, Receives, Sends, KeepsTold, TurnsToOne, attempt, came_by, both_at};
ghost use Rattle.td_outside.specs.Link.{open_on, free_port_of, client_on, FitsBuffer, IsAtItsSide};
ghost use Rattle.td_outside.specs.Moves.{Stays, Gains};

use crate::Failed;
use td_base::{DATAGRAM_MAX, Ep, Ip4, Side};

/// The addresses of a link's two sides.
#[derive(Clone, Copy, Debug, PartialEq, Eq)]
pub struct Addresses {
    pub primary: Ip4,
    pub secondary: Ip4,
}

/// Where a link is open, or is asked to be.
#[derive(Clone, Copy, Debug, PartialEq, Eq)]
pub enum Place {
    /// Two sockets, one at each address, on `td_base::TEREDO_PORT`.
    Both(Addresses),
    /// One socket at this endpoint. In what is asked port 0 stands for a free one.
    Client(Ep),
}

/// What a receiving call answers: a datagram, whose first `len` bytes are in the buffer, or that there is none.
#[derive(Clone, Copy, Debug, PartialEq, Eq)]
pub enum Arrival {
    Got { side: Side, from: Ep, len: usize },
    Idle,
}

/// Two sides, each with an address, that datagrams come to and go from.
pub trait Link {
    /// Where it is open, what it tells, and its counts of faults.
    ghost state: { Self → LinkState };

    /// Makes both sides ready on `td_base::TEREDO_PORT`. Where it is open on these addresses it stays as it is, but
    /// that it was asked.
    fn open(&mut self, primary: Ip4, secondary: Ip4) -> Result<(), Failed>
        /// An open link has the two addresses that it was opened on; asked for the same two again, it answers `Ok`, and
        /// its lists and counts stay.
        /// Leaves open: that a datagram gets anywhere.
        ensures opened { OnOk result ((state self.new).place ≡ open_on primary secondary) }
        /// See `opened`.
        ensures again { (state self.old).place ≡ open_on primary secondary → IsOk result × ((state self.new).told ≡ (state self.old).told) }
        /// Each place that a link was asked to open at is told, in order.
        /// Needs: told.
        ensures asked { Gains (state self.old).openings (state self.new).openings (both_at primary secondary) }
        /// See `opened`.
        ensures lists { KeepsTold (state self.old).told (state self.new).told }
        /// - See `Source::open`: `cause`.
        /// - See `opened`.
        ensures cause { HasCause (state self.old).recv_faults (state self.new).recv_faults result }
        /// See `opened`.
        ensures other { (state self.new).send_faults ≡ (state self.old).send_faults };

    /// Opens one socket at a free port of an address, and answers its endpoint. What is sent from either side leaves
    /// from there, and what arrives has the side Primary.
    fn open_client(&mut self, inside: Ip4) -> Result<Ep, Failed>
        /// Open as a client's, a link has one endpoint, at the address that was asked for, and what arrives has the
        /// primary side; so does all that is still to come.
        /// Leaves open: that what is sent from either side leaves from that socket, which is tested.
        ensures opened { IfOk result (λ at. (at.ip ≡ inside) × ((state self.new).place ≡ client_on at)) }
        /// See `Link::open`: `asked`.
        ensures asked { Gains (state self.old).openings (state self.new).openings (free_port_of inside) }
        /// See `opened`.
        ensures lists { MatchResult result
            (λ at. TurnsToOne (state self.old).told (state self.new).told)
            (λ _. KeepsTold (state self.old).told (state self.new).told) }
        /// - See `Source::open`: `cause`.
        /// - See `opened`.
        ensures cause { HasCause (state self.old).recv_faults (state self.new).recv_faults result }
        /// See `opened`.
        ensures other { (state self.new).send_faults ≡ (state self.old).send_faults };

    /// Takes the next datagram, or answers that there is none.
    fn recv(&mut self, buf: &mut [u8; DATAGRAM_MAX]) -> Result<Arrival, Failed>
        /// See `lists`.
        ensures room { IfOk result (λ arrival. FitsBuffer arrival) }
        /// See `Link::open_client`: `opened`.
        ensures side { IfOk result (λ arrival. IsAtItsSide (state self.old).place arrival) }
        /// `recv` gives the next arrival, which leaves what is to come and joins what was taken, or says that it had
        /// none; `send` adds its attempt, with its answer.
        /// Needs: told; at most 1,400 bytes to send.
        ensures lists { MatchResult result
            (λ arrival. Receives (state self.old).told (state self.new).told (came_by buf.new arrival))
            (λ _. KeepsTold (state self.old).told (state self.new).told) }
        /// See `Link::open`: `opened`.
        ensures places { (state self.new).place ≡ (state self.old).place }
        /// See `Link::open`: `asked`.
        ensures asked { Stays (state self.old).openings (state self.new).openings }
        /// See `Source::open`: `cause`.
        ensures cause { HasCause (state self.old).recv_faults (state self.new).recv_faults result }
        /// See `Link::open`: `opened`.
        ensures other { (state self.new).send_faults ≡ (state self.old).send_faults };

    /// Makes one attempt to send one datagram.
    fn send(&mut self, side: Side, to: Ep, bytes: &[u8]) -> Result<(), Failed>
        requires most { length bytes.now ≤ DATAGRAM_MAX }
        /// See `Link::recv`: `lists`.
        ensures lists { Sends (state self.old).told (state self.new).told (attempt side to bytes.now (is_ok result)) }
        /// See `Link::open`: `opened`.
        ensures places { (state self.new).place ≡ (state self.old).place }
        /// See `Link::open`: `asked`.
        ensures asked { Stays (state self.old).openings (state self.new).openings }
        /// See `Source::open`: `cause`.
        ensures cause { HasCause (state self.old).send_faults (state self.new).send_faults result }
        /// See `Link::open`: `opened`.
        ensures other { (state self.new).recv_faults ≡ (state self.old).recv_faults };
}
