//! The link over sockets of the system.
ghost use Rattle.std.specs.Prelude.{◌≡◌, ◌≤◌, None, length, is_err, IsOk, IsErr, IfOk};
ghost use Rattle.td_outside.specs.Causes.{HasCause};
ghost use Rattle.td_outside.specs.Link.{FitsBuffer, IsAtItsSide, open_on, client_on, told_nothing};
ghost use Rattle.td_outside.specs.UdpPair.{Pair, pair_opened, client_opened, pair_received, pair_sent};

use crate::one_socket::OneSocket;
use crate::sides::Sides;
use crate::sockets::{Sockets, is_on, put, take};
use crate::{Addresses, Arrival, Failed, Link};
use std::marker::Model;
use std::net::Net;
use std::time::Clock;
use td_base::{DATAGRAM_MAX, Ep, Ip4, Side};

/// A link over two UDP sockets, or over one as a client has it. It tells nothing of what comes and goes. Each error of
/// the system is `Failed`, with the count raised, and so is a `recv` or a `send` before it is open. The socket cuts a
/// datagram of more than `DATAGRAM_MAX` bytes to its first ones.
#[derive(Drop)]
pub struct UdpPair<'a, R: Net + AllocGlobal + Clock> {
    rt: &'a R,
    sockets: Sockets,
    recv_faults: u64,
    send_faults: u64,
}

impl<'a, R: Net + AllocGlobal + Clock> Model for UdpPair<'a, R> {
    ghost use Rattle.td_outside.specs.Sockets.{place_of};
    ghost use Rattle.td_outside.specs.UdpPair.{Pair};

    ghost Value = { Pair };

    ghost view = { λ s. record {
      place = place_of s.sockets;
      recv_faults = s.recv_faults;
      send_faults = s.send_faults;
    } };
}

impl<'a, R: Net + AllocGlobal + Clock> UdpPair<'a, R> {
    /// A link that isn't open.
    pub fn new(rt: &'a R) -> Self
        /// See `FileSource::new`.
        ensures { result ≡ record { place = None; recv_faults = 0; send_faults = 0 } }
    {
        UdpPair {
            rt,
            sockets: Sockets::Shut,
            recv_faults: 0,
            send_faults: 0,
        }
    }
}

impl<R: Net + AllocGlobal + Clock> Link for UdpPair<'_, R> {
    ghost state = { λ s. record {
      place = s.place;
      openings = None;
      told = told_nothing;
      recv_faults = s.recv_faults;
      send_faults = s.send_faults;
    } };

    fn open(&mut self, primary: Ip4, secondary: Ip4) -> Result<(), Failed>
        /// See `UdpPair::recv`: `shut`.
        ensures again { self.old.place ≡ open_on primary secondary → IsOk result }
        ensures cause { HasCause self.old.recv_faults self.new.recv_faults result }
        /// See `UdpPair::recv`: `shut`.
        ensures state { self.new ≡ pair_opened self.old primary secondary (is_err result) }
    {
        if is_on(&self.sockets, primary, secondary) {
            return Ok(());
        }
        // The old sockets are closed first, since the new ones may stand at one of their addresses.
        self.sockets = Sockets::Shut;
        let on = Addresses { primary, secondary };
        match Sides::open(self.rt, self.rt.alloc(), on) {
            Ok(sides) => {
                self.sockets = Sockets::Both(sides, on);
                Ok(())
            }
            Err(_) => {
                self.recv_faults = self.recv_faults.saturating_add(1);
                Err(Failed)
            }
        }
    }

    fn open_client(&mut self, inside: Ip4) -> Result<Ep, Failed>
        ensures inside { IfOk result (λ at. at.ip ≡ inside) }
        ensures cause { HasCause self.old.recv_faults self.new.recv_faults result }
        /// See `UdpPair::recv`: `shut`.
        ensures state { self.new ≡ client_opened self.old result }
    {
        self.sockets = Sockets::Shut;
        match OneSocket::open(self.rt, self.rt.alloc(), inside) {
            Ok((socket, at)) => {
                self.sockets = Sockets::One(socket, at);
                Ok(at)
            }
            Err(_) => {
                self.recv_faults = self.recv_faults.saturating_add(1);
                Err(Failed)
            }
        }
    }

    fn recv(&mut self, buf: &mut [u8; DATAGRAM_MAX]) -> Result<Arrival, Failed>
        ensures room { IfOk result (λ arrival. FitsBuffer arrival) }
        ensures side { IfOk result (λ arrival. IsAtItsSide self.old.place arrival) }
        /// A `UdpPair` that isn't open fails at `recv` and `send`; after a failed `open` it isn't open; opened again on
        /// the same addresses it is as it was.
        ensures shut { self.old.place ≡ None → IsErr result }
        ensures cause { HasCause self.old.recv_faults self.new.recv_faults result }
        /// See `shut`.
        ensures state { self.new ≡ pair_received self.old (is_err result) }
    {
        if let Some(arrival) = take(&mut self.sockets, self.rt, buf) {
            return Ok(arrival);
        }
        self.recv_faults = self.recv_faults.saturating_add(1);
        Err(Failed)
    }

    fn send(&mut self, side: Side, to: Ep, bytes: &[u8]) -> Result<(), Failed>
        requires most { length bytes.now ≤ DATAGRAM_MAX }
        /// See `UdpPair::recv`: `shut`.
        ensures shut { self.old.place ≡ None → IsErr result }
        ensures cause { HasCause self.old.send_faults self.new.send_faults result }
        /// See `UdpPair::recv`: `shut`.
        ensures state { self.new ≡ pair_sent self.old (is_err result) }
    {
        if put(&self.sockets, side, to, bytes) {
            return Ok(());
        }
        self.send_faults = self.send_faults.saturating_add(1);
        Err(Failed)
    }
}
