//! The line of a record.
ghost use Rattle.std.specs.Prelude.{◌≡◌, ◌+◌, ◌≤◌, ◌++◌, length};
ghost use Rattle.report.specs.Lines.{head_text, tail_text, record_line};

use crate::fields::{
    put_act, put_address, put_gone, put_handed, put_lates, put_node, put_number, put_short,
};
use crate::marks::put_marks;
use history::Record;
use td_base::{LINE_LEN, LineBuf};
use topology::Topology;

/// The most bytes of a line up to the fate.
const HEAD_LEN: usize = 119;

/// The most bytes of what follows the fate, with four late packets and nine marks.
const TAIL_LEN: usize = 896;

/// Appends what every line has.
fn put_head(index: u64, r: &Record, t: &Topology, out: &mut LineBuf)
    requires { length out.old + HEAD_LEN ≤ LINE_LEN }
    ensures text { out.new ≡ out.old ++ head_text t.now index r.now }
    ensures short { length out.new ≤ length out.old + HEAD_LEN }
{
    put_number(index, out);
    out.push_text(b" ");
    put_number(r.moment.0, out);
    out.push_text(b" ");
    put_short(r.event, out);
    out.push_text(b" ");
    put_act(r.act, out);
    out.push_text(b" ");
    put_node(t, r.node, out);
    out.push_text(b" ");
    out.push_text(r.fate.name().as_bytes());
}

/// Appends what follows the fate.
fn put_tail(r: &Record, t: &Topology, out: &mut LineBuf)
    requires { length out.old + TAIL_LEN ≤ LINE_LEN }
    ensures { out.new ≡ out.old ++ tail_text t.now r.now }
{
    put_address(r.address, out);
    put_handed(r.handed, out);
    put_lates(r.late.as_slice(), out);
    put_gone(r.gone, out);
    put_marks(t, r.marks.as_slice(), out);
    out.push_text(b"\n");
}

/// Puts the line of record number `index` in place of what the buffer held.
pub fn line(index: u64, r: &Record, t: &Topology, out: &mut LineBuf)
    /// A record's line is the stated text, in place of what the buffer held.
    ensures { out.new ≡ record_line t.now index r.now }
{
    out.clear();
    put_head(index, r, t, out);
    put_tail(r, t, out);
}
