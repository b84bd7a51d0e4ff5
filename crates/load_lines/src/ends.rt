//! The line on where a packet is in the end.
ghost use Rattle.std.specs.Prelude.{◌≡◌, ◌+◌, ◌≤◌, ◌++◌, length, Some};
ghost use Rattle.loads.specs.FollowLines.{end_text, end_text_if, back_text, whereabouts_line};

use loads::End;
use report::{put_node, put_number};
use td_base::{LINE_LEN, LineBuf, NUMBER_LEN};
use topology::{NAME_LEN, Topology};

/// The most bytes of a word and a number or a name.
const END_LEN: usize = 40;

/// A packet that a host handed in: its number, that of the record, and the node.
#[derive(Clone, Copy, Debug)]
pub struct Packet {
    pub number: u64,
    pub record: u64,
    pub node: Option<u16>,
}

/// Appends where a load is.
fn put_end(t: &Topology, end: End, out: &mut LineBuf)
    requires { length out.old + END_LEN ≤ LINE_LEN }
    ensures text { out.new ≡ out.old ++ end_text t.now end }
    ensures short { length out.new ≤ length out.old + END_LEN }
{
    match end {
        End::Arrived(record) => {
            out.push_text(b" arrived ");
            put_number(record, out);
        }
        End::WaitsAt(node) => {
            out.push_text(b" waits ");
            put_node(t, Some(node), out);
        }
        End::HeldAt(node) => {
            out.push_text(b" held ");
            put_node(t, Some(node), out);
        }
        End::OnWire(entry) => {
            out.push_text(b" wire ");
            put_number(u64::from(entry), out);
        }
        End::Lost(record) => {
            out.push_text(b" lost ");
            put_number(record, out);
        }
    }
}

/// Appends where a load is, if something carried it.
fn put_end_if(t: &Topology, end: Option<End>, out: &mut LineBuf)
    requires { length out.old + END_LEN ≤ LINE_LEN }
    ensures text { out.new ≡ out.old ++ end_text_if t.now end }
    ensures short { length out.new ≤ length out.old + END_LEN }
{
    if let Some(end) = end {
        put_end(t, end, out);
    }
}

/// The most bytes of ` back` and an end.
const BACK_LEN: usize = 45;

/// Appends where the reply to a packet is, if something carried one.
fn put_back(t: &Topology, end: Option<End>, out: &mut LineBuf)
    requires { length out.old + BACK_LEN ≤ LINE_LEN }
    ensures text { out.new ≡ out.old ++ back_text t.now end }
    ensures short { length out.new ≤ length out.old + BACK_LEN }
{
    if let Some(end) = end {
        out.push_text(b" back");
        put_end(t, end, out);
    }
}

/// Puts the line on where a packet is, and where its reply is, in place of what the buffer held.
pub fn whereabouts_line(
    t: &Topology,
    packet: Packet,
    end: Option<End>,
    back: Option<End>,
    out: &mut LineBuf,
)
    /// The line on where a packet is in the end is the stated text, in place of what the buffer held.
    ensures { out.new ≡ whereabouts_line t.now (record { packet_in = record { number = packet.number; record_number = packet.record; node = packet.node }; is_at = end; reply_is_at = back }) }
{
    out.clear();
    out.push_text(b"packet ");
    put_number(packet.number, out);
    out.push_text(b" ");
    put_number(packet.record, out);
    out.push_text(b" ");
    put_node(t, packet.node, out);
    put_end_if(t, end, out);
    put_back(t, back, out);
    out.push_text(b"\n");
}
