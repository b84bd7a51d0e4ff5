//! What a socket of the system is asked and answers, in the terms of a link.
ghost use Rattle.std.specs.Prelude.{◌≡◌, ◌≤◌, ◌*◌, ◌-◌, Some, Ok, IfOk, IfErr, IsErr};
ghost use Rattle.std.specs.Duration.{as_nanos};
ghost use Rattle.std.specs.IoError.{error_kind};
ghost use Rattle.std.specs.Time.{instant_nanos};
ghost use Rattle.td_outside.specs.Link.{FitsBuffer};
ghost use Rattle.td_base.specs.Side.{other_side};
ghost use Rattle.td_outside.specs.Edges.{endpoint_at, endpoint_of, arrival_from};

use crate::Arrival;
use std::io;
use std::io::ErrorKind;
use std::net::{Ipv4Addr, SocketAddr, SocketAddrV4};
use std::time::{Duration, Instant};
use td_base::{DATAGRAM_MAX, Ep, Ip4, Side};

/// How long a call waits where no side has a datagram.
pub(crate) const WAIT_MS: u64 = 20;

/// The most wakes of one call: a bound on its loop, far above what 20 ms can hold, since each takes four calls of the
/// system.
pub(crate) const WAKES_MAX: u32 = 1 << 17;

/// An endpoint as the system names it.
pub(crate) fn socket_addr(ep: Ep) -> SocketAddr
    ensures { endpoint_at result ≡ Some ep }
{
    let [a, b, c, d] = ep.ip.0;
    SocketAddr::V4(SocketAddrV4::new(Ipv4Addr::new(a, b, c, d), ep.port))
}

/// The endpoint that the system names so.
pub(crate) fn ep_of(from: SocketAddrV4) -> Ep
    ensures { result ≡ endpoint_of from }
{
    Ep {
        ip: Ip4(from.ip().octets()),
        port: from.port(),
    }
}

/// The side that this one isn't.
pub(crate) fn other(side: Side) -> Side
    ensures { result ≡ other_side side }
{
    match side {
        Side::Primary => Side::Secondary,
        Side::Secondary => Side::Primary,
    }
}

/// What is left of a wait that began at `start`.
pub(crate) fn time_left(start: Instant, now: Instant) -> Duration
    ensures { as_nanos result ≡ WAIT_MS * 1_000_000 - (instant_nanos now - instant_nanos start) }
{
    Duration::from_millis(WAIT_MS).saturating_sub(now.duration_since(start))
}

/// What a socket gave: `Idle` where it had nothing, and where the call was interrupted.
pub(crate) fn arrival_of(side: Side, got: io::Result<(usize, SocketAddr)>) -> io::Result<Arrival>
    requires { IfOk got (λ r. r.0 ≤ DATAGRAM_MAX) }
    ensures room { IfOk result (λ arrival. FitsBuffer arrival) }
    ensures given { IfOk got (λ r. result ≡ Ok (arrival_from side r.1 r.0)) }
    ensures nothing { IfErr got (λ e. error_kind e ≡ ErrorKind.WouldBlock → result ≡ Ok Arrival.Idle) }
    ensures broken_off { IfErr got (λ e. error_kind e ≡ ErrorKind.Interrupted → result ≡ Ok Arrival.Idle) }
    ensures fault { IfErr got (λ e. (error_kind e ≡ ErrorKind.WouldBlock → ⊥) → (error_kind e ≡ ErrorKind.Interrupted → ⊥) → IsErr result) }
{
    match got {
        Ok((len, SocketAddr::V4(from))) => Ok(Arrival::Got {
            side,
            from: ep_of(from),
            len,
        }),
        // No socket of IPv4 gives another address.
        Ok(_) => Ok(Arrival::Idle),
        Err(error) => match error.kind() {
            ErrorKind::WouldBlock | ErrorKind::Interrupted => Ok(Arrival::Idle),
            _ => Err(error),
        },
    }
}
