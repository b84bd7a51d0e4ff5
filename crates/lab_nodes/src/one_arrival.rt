//! A link that lends one datagram.
ghost use Rattle.std.specs.Prelude.{◌≡◌, ◌≤◌, [], ◌∷◌, None, length, take, is_ok, IsOk, IfOk};
ghost use Rattle.td_outside.specs.Link.{attempt, open_on, Datagram, FitsBuffer, Receives, Sends, KeepsTold, came_by};
ghost use Rattle.lab_nodes.specs.OneArrival.{told_of, coming_side};

use std::marker::Model;
use td_base::{DATAGRAM_MAX, Ep, Ip4, Side};
use td_outside::{Addresses, Arrival, Failed, Link, Place};

// The port of such a link where it is a client's.
const CLIENT_PORT: u16 = 40000;

/// A link on which one datagram is to come. Every attempt to send succeeds: what a node sends is asked of its step,
/// and whoever asks puts it on the wire.
#[derive(Drop)]
pub struct OneArrival<'a> {
    on: Option<Place>,
    side: Side,
    from: Ep,
    bytes: &'a [u8],
    is_taken: bool,
}

impl<'a> OneArrival<'a> {
    ghost use Rattle.std.specs.Prelude.{None, false};

    pub fn new(side: Side, from: Ep, bytes: &'a [u8]) -> OneArrival<'a>
        ensures { result ≡ record { on = None; side = side; from = from; bytes = bytes.entry; is_taken = false } }
    {
        OneArrival {
            on: None,
            side,
            from,
            bytes,
            is_taken: false,
        }
    }
}

impl<'a> OneArrival<'a> {
    // The side that the datagram comes to.
    fn side_now(&self) -> Side
        ensures { result ≡ coming_side self.now.on self.now.side }
    {
        match self.on {
            Some(Place::Client(_)) => Side::Primary,
            _ => self.side,
        }
    }
}

impl<'a> Link for OneArrival<'a> {
    ghost state = { λ l. record {
      place = l.on;
      openings = None;
      told = told_of l;
      recv_faults = 0;
      send_faults = 0;
    } };

    fn open(&mut self, primary: Ip4, secondary: Ip4) -> Result<(), Failed> {
        self.side = self.side_now();
        self.on = Some(Place::Both(Addresses { primary, secondary }));
        Ok(())
    }

    fn open_client(&mut self, inside: Ip4) -> Result<Ep, Failed> {
        let at = Ep {
            ip: inside,
            port: CLIENT_PORT,
        };
        self.on = Some(Place::Client(at));
        Ok(at)
    }

    fn recv(&mut self, buf: &mut [u8; DATAGRAM_MAX]) -> Result<Arrival, Failed> {
        if self.is_taken {
            return Ok(Arrival::Idle);
        }
        self.is_taken = true;
        let len = self.bytes.len().min(DATAGRAM_MAX);
        buf[..len].copy_from_slice(&self.bytes[..len]);
        Ok(Arrival::Got {
            side: self.side_now(),
            from: self.from,
            len,
        })
    }

    fn send(&mut self, _side: Side, _to: Ep, _bytes: &[u8]) -> Result<(), Failed> {
        Ok(())
    }
}
