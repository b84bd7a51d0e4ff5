//! The lines on what a NAT let out: the port, and whom the NAT lets in there since then.
ghost use Rattle.std.specs.Prelude.{◌≡◌, ◌+◌, ◌<◌, if◌then◌else◌, false, is_some, Some, None, IfSome};
ghost use Rattle.td_base.specs.declared.millis.TheConstants.{CLOCK_END_MS};
ghost use Rattle.nat_kinds.specs.Kinds.{is_symmetric};
ghost use Rattle.topology.specs.Chains.{nat_set_up};
ghost use Rattle.states.specs.Kept.{port_fact, lets_fact, at_node};
ghost use Rattle.states.specs.StateLines.{fact_line};

use crate::fields::Stamp;
use crate::nat_lines::{lets_address_line, lets_endpoint_line, port_line};
use nat_kinds::{NatKind, NatSettings, Outward};
use td_base::{Ep, Ip4, LineBuf, Millis};
use topology::{Node, Topology};

/// How the NAT of a number is set up, or one that isn't there.
fn set_up(t: &Topology, number: u16) -> NatSettings
    ensures { result ≡ nat_set_up t.now number }
{
    match t.node(usize::from(number)) {
        Some(Node::Nat(row)) => NatSettings {
            kind: row.kind,
            external: row.external,
            idle: row.idle,
        },
        _ => NatSettings {
            kind: NatKind::Cone,
            external: Ip4([0; 4]),
            idle: 0,
        },
    }
}

/// The destination that a port is for, if it is for one alone.
fn toward(kind: NatKind, dst: Ep) -> Option<Ep>
    ensures { result ≡ (if is_symmetric kind then Some dst else None) }
{
    match kind {
        NatKind::Symmetric => Some(dst),
        NatKind::Cone | NatKind::Restricted | NatKind::Port => None,
    }
}

/// When what a datagram renewed ends.
fn end_of(moment: Millis, idle: u32) -> Millis
    requires early { moment.0 < CLOCK_END_MS }
    ensures { result.0 ≡ moment.0 + idle }
{
    Millis(moment.0 + u64::from(idle))
}

/// Puts the line on the port by which a NAT let a datagram out in place of what the buffer held.
pub fn passed_port_line(
    t: &Topology,
    index: Option<u64>,
    nat: u16,
    sent: Outward,
    out: &mut LineBuf,
)
    requires early { sent.moment.0 < CLOCK_END_MS }
    /// The line on a port by which a NAT let a datagram out says whose the port is, and until when: for the NAT's idle time
    /// from then on.
    /// Needs: that the datagram's moment is one of a clock.
    ensures { out.new ≡ fact_line t.now index sent.moment.0 (at_node nat (port_fact (nat_set_up t.now nat) sent)) }
{
    let settings = set_up(t, nat);
    let stamp = Stamp {
        record: index,
        moment: sent.moment,
        node: nat,
    };
    let to = toward(settings.kind, sent.dst);
    let end = end_of(sent.moment, settings.idle);
    port_line(t, stamp, sent.port, sent.inside, to, end, out);
}

/// Puts the line on whom a NAT lets in at a port, since it let a datagram out there, in place of what the buffer held; and
/// answers whether a NAT of its kind tells of that.
pub fn passed_lets_line(
    t: &Topology,
    index: Option<u64>,
    nat: u16,
    sent: Outward,
    out: &mut LineBuf,
) -> bool
    requires early { sent.moment.0 < CLOCK_END_MS }
    /// The line on whom a NAT lets in since a datagram went out says at which port and until when, where the NAT is a
    /// restricted or a port restricted one; of another one there is none, and the buffer stays as it was.
    /// Needs: that the datagram's moment is one of a clock.
    ensures told { result ≡ is_some (lets_fact (nat_set_up t.now nat) sent.port sent) }
    /// See `told`.
    ensures line { IfSome (lets_fact (nat_set_up t.now nat) sent.port sent)
        (λ fact. out.new ≡ fact_line t.now index sent.moment.0 (at_node nat fact)) }
    /// See `told`.
    ensures untouched { result ≡ false → out.new ≡ out.old }
{
    let settings = set_up(t, nat);
    let stamp = Stamp {
        record: index,
        moment: sent.moment,
        node: nat,
    };
    let end = end_of(sent.moment, settings.idle);
    match settings.kind {
        NatKind::Restricted => {
            lets_address_line(t, stamp, sent.port, sent.dst.ip, end, out);
            true
        }
        NatKind::Port => {
            lets_endpoint_line(t, stamp, sent.port, sent.dst, end, out);
            true
        }
        NatKind::Cone | NatKind::Symmetric => false,
    }
}
