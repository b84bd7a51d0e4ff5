//! The line on what a record does with a load.
ghost use Rattle.std.specs.Prelude.{◌≡◌, ◌+◌, ◌≤◌, ◌++◌, length};
ghost use Rattle.teredo_node.specs.Fate.{fate_word};
ghost use Rattle.history.specs.Full.{Full};
ghost use Rattle.history.specs.Records.{record_of};
ghost use Rattle.loads.specs.Ends.{saying_by};
ghost use Rattle.loads.specs.FollowLines.{load_text, way_text, told_line};
ghost use Rattle.report.specs.Lines.{node_text};
ghost use Rattle.load_lines.specs.Fronts.{front_by_record};

use history::Record;
use loads::{Load, Saying, Way};
use report::{MARK_LEN, put_mark, put_node, put_number};
use td_base::{LINE_LEN, LineBuf, NUMBER_LEN};
use teredo_node::FATE_LEN;
use topology::{NAME_LEN, Topology};

/// The most bytes of the number of a record, its moment, its node and its fate.
const FRONT_LEN: usize = 79;

/// The most bytes of ` `, a number and ` back`.
const LOAD_LEN: usize = 26;

/// The most bytes of what becomes of a load.
const WAY_LEN: usize = 82;

/// Puts what a line begins with in place of what the buffer held.
fn begin_line(t: &Topology, index: u64, record: &Record, out: &mut LineBuf)
    ensures text { out.new ≡ front_by_record t.now index record.now }
    ensures short { length out.new ≤ FRONT_LEN }
{
    out.clear();
    put_number(index, out);
    out.push_text(b" ");
    put_number(record.moment.0, out);
    out.push_text(b" ");
    put_node(t, record.node, out);
    out.push_text(b" ");
    out.push_text(record.fate.name().as_bytes());
}

/// Appends a load.
fn put_load(load: Load, out: &mut LineBuf)
    requires { length out.old + LOAD_LEN ≤ LINE_LEN }
    ensures text { out.new ≡ out.old ++ load_text load }
    ensures short { length out.new ≤ length out.old + LOAD_LEN }
{
    out.push_text(b" ");
    match load {
        Load::Packet(number) => put_number(u64::from(number), out),
        Load::ReplyTo(number) => {
            put_number(u64::from(number), out);
            out.push_text(b" back");
        }
    }
}

/// Appends what becomes of a load.
fn put_way(t: &Topology, way: &Way, out: &mut LineBuf)
    requires { length out.old + WAY_LEN ≤ LINE_LEN }
    ensures text { out.new ≡ out.old ++ way_text t.now way.now }
    ensures short { length out.new ≤ length out.old + WAY_LEN }
{
    match way {
        Way::Goes(mark) => {
            out.push_text(b" goes");
            put_mark(t, mark, out);
        }
        Way::Waits => out.push_text(b" waits"),
        Way::Held => out.push_text(b" held"),
        Way::Arrives => out.push_text(b" arrives"),
        Way::Ends => out.push_text(b" ends"),
    }
}

/// Puts the line on what record number `index` does with a load in place of what the buffer held.
pub fn said_line(t: &Topology, index: u64, record: &Record, saying: &Saying, out: &mut LineBuf)
    /// The line on what a record does with a load is the stated text, in place of what the buffer held.
    ensures { (r : Full) → record_of r ≡ record.now → out.new ≡ told_line t.now (saying_by index r saying.now) }
{
    begin_line(t, index, record, out);
    put_load(saying.load, out);
    put_way(t, &saying.way, out);
    out.push_text(b"\n");
}
