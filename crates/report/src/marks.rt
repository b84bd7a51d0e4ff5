//! The marks of a record.
ghost use Rattle.std.specs.Prelude.{◌≡◌, ◌+◌, ◌*◌, ◌≤◌, ◌++◌, length};
ghost use Rattle.topology.specs.Rows.{TopologyState};
ghost use Rattle.history.specs.declared.mark.Mark.TheVariants as mark;
ghost use Rattle.report.specs.Lines.{loss_word, mark_text, marks_text};

use crate::fields::{put_ep, put_node, put_number, put_short};
use history::{Loss, Mark};
use td_base::{Ep, LINE_LEN, LineBuf};
use topology::Topology;

/// The most bytes of the word of a loss.
const LOSS_LEN: usize = 7;

/// The most bytes of a mark: two endpoints, two numbers, one of 32 bits, and what stands between them.
pub const MARK_LEN: usize = 77;

/// The word of a loss.
fn loss_name(why: Loss) -> &'static str
    ensures word { result.now ≡ loss_word why }
    ensures short { length result.now ≤ LOSS_LEN }
{
    match why {
        Loss::Hairpin => "hairpin",
        Loss::Full => "full",
        Loss::Fault => "fault",
    }
}

/// Appends the mark of a datagram.
fn put_udp(number: u32, src: Ep, dst: Ep, len: usize, out: &mut LineBuf)
    requires { length out.old + MARK_LEN ≤ LINE_LEN }
    ensures text { (t : TopologyState) → out.new ≡ out.old ++ mark_text t (mark.Udp number src dst len) }
    ensures short { length out.new ≤ length out.old + MARK_LEN }
{
    out.push_text(b" #");
    put_short(number, out);
    out.push_text(b"=");
    put_ep(src, out);
    out.push_text(b">");
    put_ep(dst, out);
    out.push_text(b"/");
    put_number(len as u64, out);
}

/// Appends the mark of a packet.
fn put_six(t: &Topology, number: u32, relay: Option<u16>, len: usize, out: &mut LineBuf)
    requires { length out.old + MARK_LEN ≤ LINE_LEN }
    ensures text { out.new ≡ out.old ++ mark_text t.now (mark.Six number relay len) }
    ensures short { length out.new ≤ length out.old + MARK_LEN }
{
    out.push_text(b" #");
    put_short(number, out);
    match relay {
        None => out.push_text(b"=six/"),
        Some(relay) => {
            out.push_text(b"=six:");
            put_node(t, Some(relay), out);
            out.push_text(b"/");
        }
    }
    put_number(len as u64, out);
}

/// Appends the mark of a datagram that was lost.
fn put_lost(why: Loss, dst: Ep, len: usize, out: &mut LineBuf)
    requires { length out.old + MARK_LEN ≤ LINE_LEN }
    ensures text { (t : TopologyState) → out.new ≡ out.old ++ mark_text t (mark.Lost why dst len) }
    ensures short { length out.new ≤ length out.old + MARK_LEN }
{
    out.push_text(b" !");
    out.push_text(loss_name(why).as_bytes());
    out.push_text(b"=");
    put_ep(dst, out);
    out.push_text(b"/");
    put_number(len as u64, out);
}

/// Appends a mark.
pub fn put_mark(t: &Topology, mark: &Mark, out: &mut LineBuf)
    requires { length out.old + MARK_LEN ≤ LINE_LEN }
    /// See `put_number`: `text`.
    ensures text { out.new ≡ out.old ++ mark_text t.now mark.now }
    /// See `put_number`: `text`.
    ensures short { length out.new ≤ length out.old + MARK_LEN }
{
    match *mark {
        Mark::Udp {
            number,
            src,
            dst,
            len,
        } => put_udp(number, src, dst, len, out),
        Mark::Six { number, relay, len } => put_six(t, number, relay, len, out),
        Mark::Lost { why, dst, len } => put_lost(why, dst, len, out),
    }
}

/// Appends marks.
pub fn put_marks(t: &Topology, marks: &[Mark], out: &mut LineBuf)
    requires { length out.old + MARK_LEN * length marks.now ≤ LINE_LEN }
    ensures text { out.new ≡ out.old ++ marks_text t.now marks.now }
    ensures short { length out.new ≤ length out.old + MARK_LEN * length marks.now }
{
    for mark in marks {
        put_mark(t, mark, out);
    }
}
