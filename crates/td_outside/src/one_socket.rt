//! A socket that doesn't block, and what waits for it.
ghost use Rattle.std.specs.Prelude.{◌≡◌, ◌≤◌, IfOk};
ghost use Rattle.td_outside.specs.Link.{FitsBuffer, IsAtPrimary};

use crate::Arrival;
use crate::edges::{WAKES_MAX, arrival_of, socket_addr, time_left};
use mio::net::UdpSocket;
use mio::{Events, Interest, Poll, Token};
use std::alloc::Global;
use std::io;
use std::net::Net;
use std::time::{Clock, Instant};
use td_base::{DATAGRAM_MAX, Ep, Ip4, Side};

// What stands for a free port where a socket is asked for.
const FREE_PORT: u16 = 0;

/// The one socket of a client, watched from its start.
#[derive(Drop)]
pub(crate) struct OneSocket {
    socket: UdpSocket,
    poll: Poll,
    events: Events,
}

impl OneSocket {
    /// Binds it to a free port of the address, and answers its endpoint. It is the one call that takes memory.
    pub(crate) fn open<R: Net>(net: &R, alloc: Global, ip: Ip4) -> io::Result<(OneSocket, Ep)>
        ensures { IfOk result (λ r. r.1.ip ≡ ip) }
    {
        let port = FREE_PORT;
        let mut socket = UdpSocket::bind(net, socket_addr(Ep { ip, port }))?;
        let port = socket.local_addr()?.port();
        let poll = Poll::new(net)?;
        poll.registry()
            .register(&mut socket, Token(0), Interest::READABLE)?;
        let events = Events::with_capacity(alloc, 1)?;
        let one = OneSocket {
            socket,
            poll,
            events,
        };
        Ok((one, Ep { ip, port }))
    }

    fn ask(&self, buf: &mut [u8; DATAGRAM_MAX]) -> io::Result<Arrival>
        ensures room { IfOk result (λ arrival. FitsBuffer arrival) }
        ensures side { IfOk result (λ arrival. IsAtPrimary arrival) }
    {
        arrival_of(Side::Primary, self.socket.recv_from(buf))
    }

    /// Takes the next datagram, or waits for it where there is none. What ends a wait early may give nothing: a signal,
    /// or a datagram whose checksum is wrong.
    pub(crate) fn take<C: Clock>(
        &mut self,
        clock: &C,
        buf: &mut [u8; DATAGRAM_MAX],
    ) -> io::Result<Arrival>
        ensures room { IfOk result (λ arrival. FitsBuffer arrival) }
        ensures side { IfOk result (λ arrival. IsAtPrimary arrival) }
    {
        let start = Instant::now(clock)?;
        let mut left = time_left(start, start);
        for _ in 0..WAKES_MAX {
            let arrival = self.ask(buf)?;
            if let Arrival::Got { .. } = arrival {
                return Ok(arrival);
            }
            if left.is_zero() {
                break;
            }
            self.poll.poll(&mut self.events, Some(left))?;
            left = time_left(start, Instant::now(clock)?);
        }
        Ok(Arrival::Idle)
    }

    /// Sends one datagram.
    pub(crate) fn put(&self, to: Ep, bytes: &[u8]) -> io::Result<usize> {
        self.socket.send_to(bytes, socket_addr(to))
    }
}
