//! The sockets of a link: none, two of a server, or one of a client.
ghost use Rattle.std.specs.Prelude.{◌≡◌, ◌↔◌, false, None, IsTrue, IsNone, IfSome};
ghost use Rattle.td_outside.specs.Link.{FitsBuffer, IsAtItsSide, open_on};
ghost use Rattle.td_outside.specs.Sockets.{place_of};

use crate::one_socket::OneSocket;
use crate::sides::Sides;
use crate::{Addresses, Arrival};
use std::time::Clock;
use td_base::{DATAGRAM_MAX, Ep, Ip4, Side};

#[derive(Drop)]
pub(crate) enum Sockets {
    Shut,
    Both(Sides, Addresses),
    One(OneSocket, Ep),
}

/// Whether these are those of a server at these addresses.
pub(crate) fn is_on(sockets: &Sockets, primary: Ip4, secondary: Ip4) -> bool
    ensures { IsTrue result ↔ (place_of sockets.now ≡ open_on primary secondary) }
{
    match sockets {
        Sockets::Both(_, on) => *on == Addresses { primary, secondary },
        _ => false,
    }
}

/// What came next, and `None` where the system failed or there is no socket.
pub(crate) fn take<C: Clock>(
    sockets: &mut Sockets,
    clock: &C,
    buf: &mut [u8; DATAGRAM_MAX],
) -> Option<Arrival>
    ensures room { IfSome result (λ arrival. FitsBuffer arrival) }
    ensures side { IfSome result (λ arrival. IsAtItsSide (place_of sockets.old) arrival) }
    ensures shut { place_of sockets.old ≡ None → IsNone result }
    ensures place { place_of sockets.new ≡ place_of sockets.old }
{
    match sockets {
        Sockets::Shut => None,
        Sockets::Both(sides, _) => sides.take(clock, buf).ok(),
        Sockets::One(socket, _) => socket.take(clock, buf).ok(),
    }
}

/// Whether the system took a datagram. The one socket sends for either side.
pub(crate) fn put(sockets: &Sockets, side: Side, to: Ep, bytes: &[u8]) -> bool
    ensures shut { place_of sockets.now ≡ None → result ≡ false }
{
    match sockets {
        Sockets::Shut => false,
        Sockets::Both(sides, _) => sides.put(side, to, bytes).is_ok(),
        Sockets::One(socket, _) => socket.put(to, bytes).is_ok(),
    }
}
