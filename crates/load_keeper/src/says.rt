//! What is said of loads, put into a list.
ghost use Rattle.std.specs.Prelude.{◌≡◌, ◌++◌, is_some, Some, None, slice_get, OnOk};
ghost use Rattle.loads.specs.Sayings.{saying, said_of_released, is_same_source};
ghost use Rattle.load_keeper.specs.Hearing.{says_of_given, says_of_one, says_to_end, says_of_held};

use crate::held_load::HeldLoad;
use crate::ways::{arrives_if, reply_goes, reply_made, way_by_fate};
use history::Mark;
use loads::{Load, Saying, Way};
use td_base::{Ep, NoMemory};
use teredo_node::Fate;

/// Appends what is said of a load, if there is one.
fn say(way: Way, load: Option<Load>, said: &mut Vec<Saying>) -> Result<(), NoMemory>
    ensures { OnOk result (said.new.items ≡ said.old.items ++ saying way load) }
{
    let Some(load) = load else {
        return Ok(());
    };
    said.push(Saying { load, way })?;
    Ok(())
}

/// Appends what is said of the load that a record was given, and of the reply to it.
pub fn say_given(
    fate: Fate,
    load: Option<Load>,
    mark: Option<Mark>,
    handed: bool,
    said: &mut Vec<Saying>,
) -> Result<(), NoMemory>
    ensures { OnOk result (said.new.items ≡ said.old.items ++ says_of_given fate load mark handed) }
{
    say(way_by_fate(fate, mark, handed), load, said)?;
    say(reply_goes(mark), reply_made(fate, load), said)
}

/// The mark of a number, if there is one.
pub fn mark_at(marks: &[Mark], i: usize) -> Option<Mark>
    ensures { result ≡ slice_get marks.now i }
{
    if i < marks.len() {
        Some(marks[i])
    } else {
        None
    }
}

/// Appends that a load goes by a mark, if there is one.
fn say_goes(mark: Option<Mark>, load: Option<Load>, said: &mut Vec<Saying>) -> Result<(), NoMemory>
    ensures { OnOk result (said.new.items ≡ said.old.items ++ says_of_one mark load) }
{
    let Some(mark) = mark else {
        return Ok(());
    };
    say(Way::Goes(mark), load, said)
}

/// Appends what is said of what waited: each load goes by a mark of its own.
pub fn say_released(
    marks: &[Mark],
    loads: &[Option<Load>],
    said: &mut Vec<Saying>,
) -> Result<(), NoMemory>
    ensures { OnOk result (said.new.items ≡ said.old.items ++ said_of_released marks.now loads.now) }
{
    for (i, load) in loads.iter().enumerate() {
        say_goes(mark_at(marks, i), *load, said)?;
    }
    Ok(())
}

/// Appends that these loads end.
pub fn say_to_end(loads: &[Option<Load>], said: &mut Vec<Saying>) -> Result<(), NoMemory>
    ensures { OnOk result (said.new.items ≡ said.old.items ++ says_to_end loads.now) }
{
    for load in loads {
        say(Way::Ends, *load, said)?;
    }
    Ok(())
}

/// Whether a packet came from where packets are handed over from.
fn is_late(late: Option<Ep>, from: Ep) -> bool
    ensures { result ≡ is_same_source late from }
{
    match late {
        None => false,
        Some(late) => from == late,
    }
}

/// Appends what is said of what was held and ends: what came from this endpoint is handed over.
pub fn say_held(late: Option<Ep>, held: &[HeldLoad], said: &mut Vec<Saying>) -> Result<(), NoMemory>
    ensures { OnOk result (said.new.items ≡ said.old.items ++ says_of_held late held.now) }
{
    for one in held {
        say(arrives_if(is_late(late, one.from)), one.load, said)?;
    }
    Ok(())
}
