//! The fields of a line on what a node keeps.
ghost use Rattle.std.specs.Prelude.{◌≡◌, ◌+◌, ◌≤◌, ◌++◌, length, decimal, option_map, Some};
ghost use Rattle.td_base.specs.Texts.{ip4_text, ep_text};
ghost use Rattle.td_base.specs.Ip6Texts.{ip6_text};
ghost use Rattle.report.specs.Lines.{node_text};
ghost use Rattle.states.specs.StateLines.{or_dash, stamp_text};

use td_base::{
    Ep, Ip4, Ip6, LINE_LEN, LineBuf, Millis, NUMBER_LEN, SHORT_LEN, print_ep, print_ip4, print_ip6,
    print_number,
};
use topology::{NAME_LEN, Topology};

/// The most bytes of the number of a record, its moment and a node.
pub const STAMP_LEN: usize = 58;

/// Of which record a line is, if of one, and of which node.
#[derive(Clone, Copy, Debug)]
pub struct Stamp {
    pub record: Option<u64>,
    pub moment: Millis,
    pub node: u16,
}

/// Appends a number.
pub fn put_number(number: u64, out: &mut LineBuf)
    requires { length out.old + NUMBER_LEN ≤ LINE_LEN }
    ensures text { out.new ≡ out.old ++ decimal number }
    ensures short { length out.new ≤ length out.old + NUMBER_LEN }
{
    let _ = print_number(number, out);
}

/// Appends an endpoint.
pub fn put_ep(ep: Ep, out: &mut LineBuf)
    requires { length out.old + SHORT_LEN ≤ LINE_LEN }
    ensures text { out.new ≡ out.old ++ ep_text ep }
    ensures short { length out.new ≤ length out.old + SHORT_LEN }
{
    let _ = print_ep(ep, out);
}

/// Appends an IPv4 address.
pub fn put_ip4(ip: Ip4, out: &mut LineBuf)
    requires { length out.old + SHORT_LEN ≤ LINE_LEN }
    ensures text { out.new ≡ out.old ++ ip4_text ip }
    ensures short { length out.new ≤ length out.old + SHORT_LEN }
{
    let _ = print_ip4(ip, out);
}

/// Appends an IPv6 address.
pub fn put_ip6(ip: Ip6, out: &mut LineBuf)
    requires { length out.old + SHORT_LEN ≤ LINE_LEN }
    ensures text { out.new ≡ out.old ++ ip6_text ip }
    ensures short { length out.new ≤ length out.old + SHORT_LEN }
{
    let _ = print_ip6(ip, out);
}

/// Appends an IPv6 address, or `-`.
pub fn put_address(ip: Option<Ip6>, out: &mut LineBuf)
    requires { length out.old + SHORT_LEN ≤ LINE_LEN }
    ensures text { out.new ≡ out.old ++ or_dash ip6_text ip }
    ensures short { length out.new ≤ length out.old + SHORT_LEN }
{
    match ip {
        None => out.push_text(b"-"),
        Some(ip) => put_ip6(ip, out),
    }
}

/// Appends an endpoint, or `-`.
pub fn put_place(at: Option<Ep>, out: &mut LineBuf)
    requires { length out.old + SHORT_LEN ≤ LINE_LEN }
    ensures text { out.new ≡ out.old ++ or_dash ep_text at }
    ensures short { length out.new ≤ length out.old + SHORT_LEN }
{
    match at {
        None => out.push_text(b"-"),
        Some(at) => put_ep(at, out),
    }
}

/// Appends a number, or `-`.
pub fn put_count(number: Option<u64>, out: &mut LineBuf)
    requires { length out.old + NUMBER_LEN ≤ LINE_LEN }
    ensures text { out.new ≡ out.old ++ or_dash decimal number }
    ensures short { length out.new ≤ length out.old + NUMBER_LEN }
{
    match number {
        None => out.push_text(b"-"),
        Some(number) => put_number(number, out),
    }
}

/// Appends a moment, or `-`.
pub fn put_moment(at: Option<Millis>, out: &mut LineBuf)
    requires { length out.old + NUMBER_LEN ≤ LINE_LEN }
    ensures text { out.new ≡ out.old ++ or_dash decimal (option_map (λ m. m.0) at) }
    ensures short { length out.new ≤ length out.old + NUMBER_LEN }
{
    match at {
        None => out.push_text(b"-"),
        Some(at) => put_number(at.0, out),
    }
}

/// Appends a node's name.
fn put_node(t: &Topology, node: u16, out: &mut LineBuf)
    requires { length out.old + NAME_LEN ≤ LINE_LEN }
    ensures text { out.new ≡ out.old ++ node_text t.now (Some node) }
    ensures short { length out.new ≤ length out.old + NAME_LEN }
{
    match t.name_at(node) {
        None => out.push_text(b"-"),
        Some(name) => out.push_text(name.as_slice()),
    }
}

/// Puts what every line begins with in place of what the buffer held.
pub fn begin_line(t: &Topology, stamp: Stamp, out: &mut LineBuf)
    ensures text { out.new ≡ stamp_text t.now stamp.record stamp.moment.0 stamp.node }
    ensures short { length out.new ≤ STAMP_LEN }
{
    out.clear();
    put_count(stamp.record, out);
    out.push_text(b" ");
    put_number(stamp.moment.0, out);
    out.push_text(b" ");
    put_node(t, stamp.node, out);
}
