//! The lines on what a NAT keeps, and on what is void.
ghost use Rattle.std.specs.Prelude.{◌≡◌, ◌+◌, ◌≤◌, ◌++◌, length};
ghost use Rattle.states.specs.Facts.{with_address, with_endpoint, nothing, forgets, holds_port, lets};
ghost use Rattle.states.specs.Kept.{at_node};
ghost use Rattle.states.specs.StateLines.{toward_text, until_text, fact_text, fact_line};

use crate::fields::{Stamp, begin_line, put_ep, put_ip4, put_number};
use td_base::{Ep, Ip4, LINE_LEN, LineBuf, Millis};
use topology::Topology;

/// The most bytes of ` to ` and an endpoint.
const TOWARD_LEN: usize = 44;

/// The most bytes of what a line says of a NAT.
const FACT_LEN: usize = 190;

/// The most bytes of ` until ` and a moment.
const UNTIL_LEN: usize = 27;

/// Appends the destination that a port is for, if it is for one alone.
fn put_toward(to: Option<Ep>, out: &mut LineBuf)
    requires { length out.old + TOWARD_LEN ≤ LINE_LEN }
    ensures text { out.new ≡ out.old ++ toward_text to }
    ensures short { length out.new ≤ length out.old + TOWARD_LEN }
{
    let Some(to) = to else {
        return;
    };
    out.push_text(b" to ");
    put_ep(to, out);
}

/// Appends when it ends.
fn put_until(end: Millis, out: &mut LineBuf)
    requires { length out.old + UNTIL_LEN ≤ LINE_LEN }
    ensures text { out.new ≡ out.old ++ until_text end.0 }
    ensures short { length out.new ≤ length out.old + UNTIL_LEN }
{
    out.push_text(b" until ");
    put_number(end.0, out);
}

/// Appends that what was said of an inside endpoint is void.
fn put_forgotten(inside: Ep, out: &mut LineBuf)
    requires { length out.old + FACT_LEN ≤ LINE_LEN }
    ensures text { out.new ≡ out.old ++ fact_text (forgets inside) }
    ensures short { length out.new ≤ length out.old + FACT_LEN }
{
    out.push_text(b" inside ");
    put_ep(inside, out);
    out.push_text(b" -");
}

/// Appends a port, and whose it is.
fn put_port(port: u16, inside: Ep, to: Option<Ep>, end: Millis, out: &mut LineBuf)
    requires { length out.old + FACT_LEN ≤ LINE_LEN }
    ensures text { out.new ≡ out.old ++ fact_text (holds_port port inside to end.0) }
    ensures short { length out.new ≤ length out.old + FACT_LEN }
{
    out.push_text(b" port ");
    put_number(u64::from(port), out);
    out.push_text(b" inside ");
    put_ep(inside, out);
    put_toward(to, out);
    put_until(end, out);
}

/// Appends a port, and an address that is let in there.
fn put_lets_address(port: u16, ip: Ip4, end: Millis, out: &mut LineBuf)
    requires { length out.old + FACT_LEN ≤ LINE_LEN }
    ensures text { out.new ≡ out.old ++ fact_text (lets port (with_address ip) end.0) }
    ensures short { length out.new ≤ length out.old + FACT_LEN }
{
    out.push_text(b" port ");
    put_number(u64::from(port), out);
    out.push_text(b" lets ");
    put_ip4(ip, out);
    put_until(end, out);
}

/// Appends a port, and an endpoint that is let in there.
fn put_lets_endpoint(port: u16, ep: Ep, end: Millis, out: &mut LineBuf)
    requires { length out.old + FACT_LEN ≤ LINE_LEN }
    ensures text { out.new ≡ out.old ++ fact_text (lets port (with_endpoint ep) end.0) }
    ensures short { length out.new ≤ length out.old + FACT_LEN }
{
    out.push_text(b" port ");
    put_number(u64::from(port), out);
    out.push_text(b" lets ");
    put_ep(ep, out);
    put_until(end, out);
}

/// Puts the line by which all that was said of a node is void in place of what the buffer held.
pub fn void_line(t: &Topology, stamp: Stamp, out: &mut LineBuf)
    /// By this line all that was said of a node is void.
    ensures { out.new ≡ fact_line t.now stamp.record stamp.moment.0 (at_node stamp.node nothing) }
{
    begin_line(t, stamp, out);
    out.push_text(b" -");
    out.push_text(b"\n");
}

/// Puts the line by which all that was said of an inside endpoint is void in place of what the buffer held.
pub fn forgets_line(t: &Topology, stamp: Stamp, inside: Ep, out: &mut LineBuf)
    /// By this line all that was said of an inside endpoint of a NAT is void.
    ensures { out.new ≡ fact_line t.now stamp.record stamp.moment.0 (at_node stamp.node (forgets inside)) }
{
    begin_line(t, stamp, out);
    put_forgotten(inside, out);
    out.push_text(b"\n");
}

/// Puts the line on a port in place of what the buffer held.
pub fn port_line(
    t: &Topology,
    stamp: Stamp,
    port: u16,
    inside: Ep,
    to: Option<Ep>,
    end: Millis,
    out: &mut LineBuf,
)
    /// The line on a port of a NAT says whose the port is and when it ends, and of a symmetric NAT toward whom.
    ensures { out.new ≡ fact_line t.now stamp.record stamp.moment.0 (at_node stamp.node (holds_port port inside to end.0)) }
{
    begin_line(t, stamp, out);
    put_port(port, inside, to, end, out);
    out.push_text(b"\n");
}

/// Puts the line on an address that is let in at a port in place of what the buffer held.
pub fn lets_address_line(
    t: &Topology,
    stamp: Stamp,
    port: u16,
    ip: Ip4,
    end: Millis,
    out: &mut LineBuf,
)
    /// The line on an address that a NAT lets in says at which port, and until when; so does that on an endpoint.
    ensures { out.new ≡ fact_line t.now stamp.record stamp.moment.0 (at_node stamp.node (lets port (with_address ip) end.0)) }
{
    begin_line(t, stamp, out);
    put_lets_address(port, ip, end, out);
    out.push_text(b"\n");
}

/// Puts the line on an endpoint that is let in at a port in place of what the buffer held.
pub fn lets_endpoint_line(
    t: &Topology,
    stamp: Stamp,
    port: u16,
    ep: Ep,
    end: Millis,
    out: &mut LineBuf,
)
    /// See `lets_address_line`.
    ensures { out.new ≡ fact_line t.now stamp.record stamp.moment.0 (at_node stamp.node (lets port (with_endpoint ep) end.0)) }
{
    begin_line(t, stamp, out);
    put_lets_endpoint(port, ep, end, out);
    out.push_text(b"\n");
}
