//! What a link in memory receives.
ghost use Rattle.std.specs.Prelude.{◌≡◌, ◌≤◌, length, map, take, drop};
ghost use Rattle.td_outside.specs.Link.{FitsBuffer, at_primary, came_by};
ghost use Rattle.td_outside.specs.MemLink.{came_from};

use crate::Arrival;
use td_base::{DATAGRAM_MAX, Ep, Octets, Side};

/// What a link in memory is given to receive. A longer datagram is cut to `DATAGRAM_MAX` bytes.
#[derive(Drop)]
pub enum MemArrival {
    Got { side: Side, from: Ep, bytes: Octets },
    Idle,
}

// Copies the front of a datagram that fits, and answers its length.
fn copy_front(bytes: &[u8], buf: &mut [u8; DATAGRAM_MAX]) -> usize
    ensures room { result ≤ DATAGRAM_MAX }
    ensures front { take result buf.new ≡ take DATAGRAM_MAX bytes.now }
{
    let len = bytes.len().min(DATAGRAM_MAX);
    buf[..len].copy_from_slice(&bytes[..len]);
    len
}

/// Gives an arrival.
pub(crate) fn give(arrival: &MemArrival, buf: &mut [u8; DATAGRAM_MAX]) -> Arrival
    ensures room { FitsBuffer result }
    ensures given { came_by buf.new result ≡ came_from arrival.now }
{
    match arrival {
        MemArrival::Got { side, from, bytes } => Arrival::Got {
            side: *side,
            from: *from,
            len: copy_front(bytes.as_slice(), buf),
        },
        MemArrival::Idle => Arrival::Idle,
    }
}

// Lets an arrival come to the primary side.
fn turn_to_primary(arrival: &mut MemArrival)
    ensures { came_from arrival.new ≡ at_primary (came_from arrival.old) }
{
    if let MemArrival::Got { side, .. } = arrival {
        *side = Side::Primary;
    }
}

// Lets each arrival come to the primary side.
fn all_to_primary(arrivals: &mut [MemArrival])
    ensures { map came_from arrivals.new ≡ map at_primary (map came_from arrivals.old) }
{
    for arrival in arrivals.iter_mut() {
        turn_to_primary(arrival);
    }
}

// Lets each of them from one on come to the primary side.
fn rest_to_primary(arrivals: &mut [MemArrival], at: usize)
    requires within { at ≤ length arrivals.old }
    ensures before { take at (map came_from arrivals.new) ≡ take at (map came_from arrivals.old) }
    ensures behind { drop at (map came_from arrivals.new) ≡ map at_primary (drop at (map came_from arrivals.old)) }
{
    all_to_primary(&mut arrivals[at..]);
}

/// Lets each arrival from one on come to the primary side.
pub(crate) fn bring_to_primary(arrivals: &mut Vec<MemArrival>, at: usize)
    requires within { at ≤ length arrivals.old.items }
    ensures before { take at (map came_from arrivals.new.items) ≡ take at (map came_from arrivals.old.items) }
    ensures behind { drop at (map came_from arrivals.new.items) ≡ map at_primary (drop at (map came_from arrivals.old.items)) }
    ensures size { length arrivals.new.items ≡ length arrivals.old.items }
{
    rest_to_primary(arrivals.as_mut_slice(), at);
}
