//! Who sends, and how what it sends comes onto the wire.
ghost use Rattle.std.specs.Prelude.{◌≡◌, ◌≤◌, ◌++◌, true, false, [], Ok, List, length, IfOk, IfSome, OnErr, OnOk, IfErr};
ghost use Rattle.td_base.specs.declared.datagram.TheConstants.{DATAGRAM_MAX};
ghost use Rattle.teredo_node.specs.Sends.{has_any};
ghost use Rattle.teredo_node.specs.declared.step.TheConstants.{SENDS_MAX};
ghost use Rattle.topology.specs.Named.{is_nat};
ghost use Rattle.topology.specs.Topology.{node_at};
ghost use Rattle.topology.specs.Chains.{Passing, way_out};
ghost use Rattle.history.specs.Full.{Full};
ghost use Rattle.legal.specs.Lab.{Lab};
ghost use Rattle.legal.specs.Past.{armed_after};
ghost use Rattle.legal.specs.Emit.{is_at_place, or_loss, crossing_unless, by_way, outright};
ghost use Rattle.lab_nodes.specs.Outlet.{source_at, six_sent};
ghost use Rattle.world.specs.Wire.{Puts, Extends};
ghost use Rattle.world.specs.Egress.{source_or_loss};
ghost use Rattle.world.specs.Emission.{AreNatsWith, AreNatsAmid, Crossed, HasItsNat, emitted_by};

use crate::egress::Egress;
use crate::wire::Wire;
use crate::wire_entry::WireEntry;
use history::{Loss, Marks, Stop};
use lab_nodes::{Outlet, SixPacket};
use nat_kinds::NatRefusal;
use td_base::{Ep, Millis, Side};
use td_chain::Chains;
use teredo_node::Step;

/// How what is sent leaves, and when.
#[derive(Clone, Copy, Debug)]
pub struct Sender {
    pub outlet: Outlet,
    pub now: Millis,
    /// The number of the send that fails.
    pub fails: Option<u8>,
}

/// Endpoints of a node's own, one a side.
#[derive(Clone, Copy, Debug)]
struct Sources {
    primary: Ep,
    secondary: Ep,
}

/// An endpoint of a client's own, behind its NAT.
#[derive(Clone, Copy, Debug)]
struct ClientEnd {
    inside: Ep,
    nat: u16,
}

/// Whether the send of this number fails.
fn is_failing(fails: Option<u8>, number: usize) -> bool
    ensures { result ≡ is_at_place number fails }
{
    match fails {
        None => false,
        Some(failing) => number == usize::from(failing),
    }
}

/// The number of the send that is to fail after a step: none where the step sends something.
pub fn still_armed(armed: Option<u8>, step: &Step) -> Option<u8>
    ensures { result ≡ armed_after (has_any step.now.sends) armed }
{
    if step.count() > 0 {
        return None;
    }
    armed
}

/// The endpoint of a side.
fn source_at(primary: Ep, secondary: Ep, side: Side) -> Ep
    ensures { result ≡ source_at primary secondary side }
{
    match side {
        Side::Primary => primary,
        Side::Secondary => secondary,
    }
}

/// How a datagram leaves from an endpoint of the node's own, unless it fails.
fn leave_unless(failing: bool, from: Sources, side: Side) -> Egress
    ensures { source_or_loss result ≡ or_loss failing (Ok (source_at from.primary from.secondary side)) }
{
    if failing {
        return Egress::Lost { why: Loss::Fault };
    }
    let src = source_at(from.primary, from.secondary, side);
    Egress::Leaves { src }
}

/// Puts the datagrams of a step on the wire, from endpoints of the node's own, and a mark for each into `marks`. The send
/// of one number fails. At a stop some of them are there.
fn put_outright(
    wire: &mut Wire,
    from: Sources,
    fails: Option<u8>,
    step: &Step,
    marks: &mut Marks,
) -> Result<(), Stop>
    requires none { marks.old ≡ [] }
    ensures puts { Puts wire.old wire.new [] marks.new (outright (source_at from.primary from.secondary) fails 0 step.now.sends) result }
    ensures few { OnOk result (length marks.new ≤ SENDS_MAX) }
    ensures err { OnErr result (Extends wire.old wire.new) }
{
    for i in 0..step.count() {
        let (side, to, bytes) = step.send(i);
        let failing = is_failing(fails, i);
        let egress = leave_unless(failing, from, side);
        wire.send(egress, to, bytes, marks)?;
    }
    Ok(())
}

/// How a datagram leaves by the NATs on its way.
fn cross(nats: &mut Chains<'_>, now: Millis, from: ClientEnd, to: Ep) -> Result<Egress, Stop>
    requires nat { is_nat (node_at nats.old.topology from.nat) ≡ true }
    requires clock { nats.old.moment ≤ now.0 }
    ensures crosses { IfOk result (λ egress. (lab : Lab) (H : List Full) (passed : List Passing) → AreNatsWith lab H passed nats.old
        → Crossed lab H (crossing_unless false lab H now.0 to (way_out lab.chain from.nat) from.inside passed) false (source_or_loss egress) nats.new) }
    ensures amid { OnErr result ((lab : Lab) (H : List Full) (passed : List Passing) → AreNatsWith lab H passed nats.old
        → AreNatsAmid lab H (crossing_unless false lab H now.0 to (way_out lab.chain from.nat) from.inside passed).passed nats.new) }
    ensures needs { IfErr result (λ stop. stop ≡ Stop.NoMemory) }
    ensures same { nats.new ≡ record nats.old { moment = now.0; nats = nats.new.nats } }
{
    match nats.outward(now, from.nat, from.inside, to) {
        Ok(src) => Ok(Egress::Leaves { src }),
        Err(refusal) => match refusal {
            NatRefusal::Hairpin => Ok(Egress::Lost { why: Loss::Hairpin }),
            NatRefusal::Full => Ok(Egress::Lost { why: Loss::Full }),
            NatRefusal::NoMemory => Err(Stop::NoMemory),
        },
    }
}

/// The same, unless the datagram fails: then it comes to no NAT.
fn cross_unless(
    failing: bool,
    nats: &mut Chains<'_>,
    now: Millis,
    from: ClientEnd,
    to: Ep,
) -> Result<Egress, Stop>
    requires nat { is_nat (node_at nats.old.topology from.nat) ≡ true }
    requires clock { nats.old.moment ≤ now.0 }
    ensures crosses { IfOk result (λ egress. (lab : Lab) (H : List Full) (passed : List Passing) → AreNatsWith lab H passed nats.old
        → Crossed lab H (crossing_unless failing lab H now.0 to (way_out lab.chain from.nat) from.inside passed) failing (source_or_loss egress) nats.new) }
    ensures amid { OnErr result ((lab : Lab) (H : List Full) (passed : List Passing) → AreNatsWith lab H passed nats.old
        → AreNatsAmid lab H (crossing_unless failing lab H now.0 to (way_out lab.chain from.nat) from.inside passed).passed nats.new) }
    ensures needs { IfErr result (λ stop. stop ≡ Stop.NoMemory) }
    ensures same { nats.new ≡ record nats.old { moment = nats.new.moment; nats = nats.new.nats } }
    ensures clock { nats.new.moment ≤ now.0 }
{
    if failing {
        return Ok(Egress::Lost { why: Loss::Fault });
    }
    cross(nats, now, from, to)
}

/// Puts those datagrams of a step on the wire that the NATs on their way let out, and a mark for each into `marks`. The
/// send of one number fails. At a stop some of them are there.
fn put_through(
    wire: &mut Wire,
    nats: &mut Chains<'_>,
    sender: Sender,
    from: ClientEnd,
    step: &Step,
    marks: &mut Marks,
) -> Result<(), Stop>
    requires none { marks.old ≡ [] }
    requires nat { is_nat (node_at nats.old.topology from.nat) ≡ true }
    requires clock { nats.old.moment ≤ sender.now.0 }
    ensures puts { (lab : Lab) (H : List Full) → AreNatsWith lab H [] nats.old
        → Puts wire.old wire.new [] marks.new
        (by_way lab H sender.now.0 (way_out lab.chain from.nat) from.inside sender.fails 0 [] step.now.sends).made result }
    ensures knows { OnOk result ((lab : Lab) (H : List Full) → AreNatsWith lab H [] nats.old
        → AreNatsWith lab H (by_way lab H sender.now.0 (way_out lab.chain from.nat) from.inside sender.fails 0 [] step.now.sends).passed nats.new) }
    ensures amid { OnErr result ((lab : Lab) (H : List Full) → AreNatsWith lab H [] nats.old
        → AreNatsAmid lab H (by_way lab H sender.now.0 (way_out lab.chain from.nat) from.inside sender.fails 0 [] step.now.sends).passed nats.new) }
    ensures same { nats.new ≡ record nats.old { moment = nats.new.moment; nats = nats.new.nats } }
    ensures clock { nats.new.moment ≤ sender.now.0 }
    ensures err { OnErr result (Extends wire.old wire.new) }
{
    for i in 0..step.count() {
        let (_, to, bytes) = step.send(i);
        let failing = is_failing(sender.fails, i);
        let egress = cross_unless(failing, nats, sender.now, from, to)?;
        wire.send(egress, to, bytes, marks)?;
    }
    Ok(())
}

/// Puts an IPv6 packet on the wire, if there is one.
fn put_six(wire: &mut Wire, packet: Option<SixPacket<'_>>, marks: &mut Marks) -> Result<(), Stop>
    requires short { IfSome packet (λ six. length six.bytes.now ≤ DATAGRAM_MAX) }
    requires few { length marks.old ≤ SENDS_MAX }
    ensures puts { Puts wire.old wire.new marks.old marks.new (six_sent packet.entry) result }
    ensures err { OnErr result (wire.new ≡ wire.old) }
{
    match packet {
        None => Ok(()),
        Some(SixPacket { relay, bytes }) => wire.put(WireEntry::Six { relay, bytes }, marks),
    }
}

/// Puts the datagrams of a step on the wire, from endpoints of the node's own, then its packet.
fn put_own(
    wire: &mut Wire,
    from: Sources,
    fails: Option<u8>,
    step: &Step,
    packet: Option<SixPacket<'_>>,
    marks: &mut Marks,
) -> Result<(), Stop>
    requires none { marks.old ≡ [] }
    requires short { IfSome packet (λ six. length six.bytes.now ≤ DATAGRAM_MAX) }
    ensures puts { Puts wire.old wire.new [] marks.new (outright (source_at from.primary from.secondary) fails 0 step.now.sends ++ six_sent packet.entry) result }
    ensures err { OnErr result (Extends wire.old wire.new) }
{
    put_outright(wire, from, fails, step, marks)?;
    put_six(wire, packet, marks)
}

/// Puts what a node sends on the wire: the datagrams of its step, then its packet; and a mark for each into `marks`. At
/// a stop some of it is there.
fn put_all(
    sender: Sender,
    nats: &mut Chains<'_>,
    wire: &mut Wire,
    step: &Step,
    packet: Option<SixPacket<'_>>,
    marks: &mut Marks,
) -> Result<(), Stop>
    requires none { marks.old ≡ [] }
    requires short { IfSome packet (λ six. length six.bytes.now ≤ DATAGRAM_MAX) }
    requires nat { HasItsNat sender.outlet nats.old.topology }
    requires clock { nats.old.moment ≤ sender.now.0 }
    ensures puts { (lab : Lab) (H : List Full) → AreNatsWith lab H [] nats.old
        → Puts wire.old wire.new [] marks.new (emitted_by lab H sender packet.entry step.now.sends).made result }
    ensures knows { OnOk result ((lab : Lab) (H : List Full) → AreNatsWith lab H [] nats.old
        → AreNatsWith lab H (emitted_by lab H sender packet.entry step.now.sends).passed nats.new) }
    ensures amid { OnErr result ((lab : Lab) (H : List Full) → AreNatsWith lab H [] nats.old
        → AreNatsAmid lab H (emitted_by lab H sender packet.entry step.now.sends).passed nats.new) }
    ensures same { nats.new ≡ record nats.old { moment = nats.new.moment; nats = nats.new.nats } }
    ensures clock { nats.new.moment ≤ sender.now.0 }
    ensures err { OnErr result (Extends wire.old wire.new) }
{
    match sender.outlet {
        Outlet::Silent => put_six(wire, packet, marks),
        Outlet::Own { primary, secondary } => {
            let from = Sources { primary, secondary };
            put_own(wire, from, sender.fails, step, packet, marks)
        }
        Outlet::Through { inside, nat } => {
            let from = ClientEnd { inside, nat };
            put_through(wire, nats, sender, from, step, marks)
        }
    }
}

/// Puts what a node sends on the wire, and the marks into `marks`. At a stop neither has any of it.
pub fn emit(
    sender: Sender,
    nats: &mut Chains<'_>,
    wire: &mut Wire,
    step: &Step,
    packet: Option<SixPacket<'_>>,
    marks: &mut Marks,
) -> Result<(), Stop>
    requires none { marks.old ≡ [] }
    requires short { IfSome packet (λ six. length six.bytes.now ≤ DATAGRAM_MAX) }
    requires nat { HasItsNat sender.outlet nats.old.topology }
    requires clock { nats.old.moment ≤ sender.now.0 }
    ensures puts { (lab : Lab) (H : List Full) → AreNatsWith lab H [] nats.old
        → Puts wire.old wire.new [] marks.new (emitted_by lab H sender packet.entry step.now.sends).made result }
    ensures knows { OnOk result ((lab : Lab) (H : List Full) → AreNatsWith lab H [] nats.old
        → AreNatsWith lab H (emitted_by lab H sender packet.entry step.now.sends).passed nats.new) }
    ensures amid { OnErr result ((lab : Lab) (H : List Full) → AreNatsWith lab H [] nats.old
        → AreNatsAmid lab H (emitted_by lab H sender packet.entry step.now.sends).passed nats.new) }
    ensures same { nats.new ≡ record nats.old { moment = nats.new.moment; nats = nats.new.nats } }
    ensures clock { nats.new.moment ≤ sender.now.0 }
    ensures err { OnErr result ((wire.new ≡ wire.old) × (marks.new ≡ marks.old)) }
{
    let len = wire.len();
    match put_all(sender, nats, wire, step, packet, marks) {
        Ok(()) => Ok(()),
        Err(stop) => {
            wire.cut(len);
            marks.clear();
            Err(stop)
        }
    }
}
