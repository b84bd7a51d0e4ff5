//! Two sockets that don't block, and what waits for both at once.
ghost use Rattle.std.specs.Prelude.{◌≡◌, ◌≤◌, IfOk};
ghost use Rattle.td_outside.specs.Link.{FitsBuffer};

use crate::edges::{WAKES_MAX, arrival_of, other, socket_addr, time_left};
use crate::{Addresses, Arrival};
use mio::net::UdpSocket;
use mio::{Events, Interest, Poll, Token};
use std::alloc::Global;
use std::io;
use std::net::Net;
use std::time::{Clock, Duration, Instant};
use td_base::{DATAGRAM_MAX, Ep, Ip4, Side, TEREDO_PORT};

// The most datagrams that a side gives while the other one, which had none when it was asked, isn't asked again.
const LEAD_MAX: u8 = 16;

// After so many datagrams without a wait the sockets are watched no more until the next one: to be watched has its
// price at each datagram that comes or goes.
const STREAK_MAX: u8 = 32;

/// The sockets of an open pair.
#[derive(Drop)]
pub(crate) struct Sides {
    primary: UdpSocket,
    secondary: UdpSocket,
    poll: Poll,
    events: Events,
    // whether `poll` watches both sockets
    watched: bool,
    // how many datagrams came since the last wait
    streak: u8,
    // the side that is asked first
    first: Side,
    // how many datagrams it may give before the other one is asked; with 0 they take turns
    lead: u8,
}

fn socket_on<R: Net>(net: &R, ip: Ip4) -> io::Result<UdpSocket> {
    let port = TEREDO_PORT;
    UdpSocket::bind(net, socket_addr(Ep { ip, port }))
}

impl Sides {
    /// Binds both sockets. It is the one call that takes memory.
    pub(crate) fn open<R: Net>(net: &R, alloc: Global, on: Addresses) -> io::Result<Sides> {
        Ok(Sides {
            primary: socket_on(net, on.primary)?,
            secondary: socket_on(net, on.secondary)?,
            poll: Poll::new(net)?,
            events: Events::with_capacity(alloc, 2)?,
            watched: false,
            streak: STREAK_MAX,
            first: Side::Primary,
            lead: 0,
        })
    }

    fn socket(&self, side: Side) -> &UdpSocket {
        match side {
            Side::Primary => &self.primary,
            Side::Secondary => &self.secondary,
        }
    }

    fn ask(&self, side: Side, buf: &mut [u8; DATAGRAM_MAX]) -> io::Result<Arrival>
        ensures { IfOk result (λ arrival. FitsBuffer arrival) }
    {
        arrival_of(side, self.socket(side).recv_from(buf))
    }

    // Asks the side whose turn it is.
    fn ask_first(&mut self, buf: &mut [u8; DATAGRAM_MAX]) -> io::Result<Arrival>
        ensures { IfOk result (λ arrival. FitsBuffer arrival) }
    {
        let arrival = self.ask(self.first, buf)?;
        if let Arrival::Got { .. } = arrival {
            self.lead = self.lead.saturating_sub(1);
            if self.lead == 0 {
                self.first = other(self.first);
            }
        }
        Ok(arrival)
    }

    // Asks both sides without waiting. Two busy sides give a datagram each in turn. Where one has nothing the other
    // leads, since each question is a call of the system's: it gives some datagrams before the first is asked again.
    fn ask_both(&mut self, buf: &mut [u8; DATAGRAM_MAX]) -> io::Result<Arrival>
        ensures { IfOk result (λ arrival. FitsBuffer arrival) }
    {
        match self.ask_first(buf)? {
            Arrival::Idle => {
                self.first = other(self.first);
                self.lead = LEAD_MAX;
                self.ask_first(buf)
            }
            got => Ok(got),
        }
    }

    fn watch(&mut self) -> io::Result<()> {
        let registry = self.poll.registry();
        registry.register(&mut self.primary, Token(0), Interest::READABLE)?;
        registry.register(&mut self.secondary, Token(1), Interest::READABLE)?;
        self.watched = true;
        Ok(())
    }

    fn unwatch(&mut self) -> io::Result<()> {
        let registry = self.poll.registry();
        registry.deregister(&mut self.primary)?;
        registry.deregister(&mut self.secondary)?;
        self.watched = false;
        Ok(())
    }

    // Waits after both sides answered that they have nothing: what came since then or comes now ends the wait.
    fn wait(&mut self, most: Duration) -> io::Result<()> {
        if !self.watched {
            self.watch()?;
        }
        self.streak = 0;
        self.poll.poll(&mut self.events, Some(most))
    }

    // Waits for a datagram until the time is over. What ends a wait early may give nothing: the system looks at the
    // checksum of most datagrams only when it is asked for them, and a signal ends a wait too.
    fn take_within<C: Clock>(
        &mut self,
        clock: &C,
        buf: &mut [u8; DATAGRAM_MAX],
    ) -> io::Result<Arrival>
        ensures { IfOk result (λ arrival. FitsBuffer arrival) }
    {
        let start = Instant::now(clock)?;
        let mut left = time_left(start, start);
        for _ in 0..WAKES_MAX {
            self.wait(left)?;
            let arrival = self.ask_both(buf)?;
            if let Arrival::Got { .. } = arrival {
                return Ok(arrival);
            }
            left = time_left(start, Instant::now(clock)?);
            if left.is_zero() {
                break;
            }
        }
        Ok(Arrival::Idle)
    }

    /// Takes the next datagram, or waits for it where neither side has one.
    pub(crate) fn take<C: Clock>(
        &mut self,
        clock: &C,
        buf: &mut [u8; DATAGRAM_MAX],
    ) -> io::Result<Arrival>
        ensures { IfOk result (λ arrival. FitsBuffer arrival) }
    {
        if self.watched && self.streak >= STREAK_MAX {
            self.unwatch()?;
        }
        match self.ask_both(buf)? {
            Arrival::Idle => self.take_within(clock, buf),
            got => {
                self.streak = self.streak.saturating_add(1);
                Ok(got)
            }
        }
    }

    /// Sends one datagram.
    pub(crate) fn put(&self, side: Side, to: Ep, bytes: &[u8]) -> io::Result<usize> {
        self.socket(side).send_to(bytes, socket_addr(to))
    }
}
