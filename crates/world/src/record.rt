//! The records that a world fills.
ghost use Rattle.std.specs.Prelude.{◌≡◌, [], Some, map, length};
ghost use Rattle.world.specs.Record.{fresh_record, with_deed};

use history::{Act, Lates, Marks, Record};
use td_base::Millis;
use teredo_node::{Fate, Step};

/// The record of an event at a moment, which doesn't say yet what was done.
pub fn blank(index: u32, now: Millis) -> Record
    /// A record to begin with has a number and a moment, and says that nothing was done.
    ensures { result ≡ fresh_record index now.0 }
{
    Record {
        event: index,
        moment: now,
        act: Act::Tick,
        node: None,
        fate: Fate::Idle,
        address: None,
        handed: None,
        late: Lates::new(),
        gone: 0,
        marks: Marks::new(),
    }
}

/// Puts the record of an event at a moment, which doesn't say yet what was done, in place of what `out` held. It has
/// some 400 bytes, most of them the marks and lengths that it held before, and these stay where they are.
pub fn begin(out: &mut Record, index: u32, now: Millis)
    ensures { out.new ≡ fresh_record index now.0 }
{
    out.event = index;
    out.moment = now;
    out.act = Act::Tick;
    out.node = None;
    out.fate = Fate::Idle;
    out.address = None;
    out.handed = None;
    out.late.clear();
    out.gone = 0;
    out.marks.clear();
}

/// Says what was done, by which node, and by which rule.
pub fn say(out: &mut Record, act: Act, node: Option<u16>, fate: Fate)
    ensures { out.new ≡ with_deed out.old act node fate }
{
    out.act = act;
    out.node = node;
    out.fate = fate;
}

/// Puts the lengths of what a step hands over late behind none.
fn put_lates(lates: &mut Lates, step: &Step)
    requires none { lates.old ≡ [] }
    ensures { lates.new ≡ map length step.now.late }
{
    for i in 0..step.late_count() {
        lates.push(step.late(i).len());
    }
}

/// Says what a node did by its step. What it sends, and what a host was handed of its input, isn't in it yet.
pub fn say_step(out: &mut Record, act: Act, node: u16, step: &Step)
    ensures { out.new ≡ record (with_deed out.old act (Some node) step.now.fate) { late = map length step.now.late; gone = step.now.gone } }
{
    say(out, act, Some(node), step.fate());
    out.late.clear();
    put_lates(&mut out.late, step);
    out.gone = step.gone();
}
