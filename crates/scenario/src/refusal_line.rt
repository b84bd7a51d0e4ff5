//! The line of a refused text.
ghost use Rattle.std.specs.Prelude.{◌≡◌, ◌+◌, ◌≤◌, ◌++◌, length, codes, decimal};
ghost use Rattle.scenario.specs.Refusals.{line_at, refusal_line};

use crate::path::Path;
use crate::scenario_fault::ScenarioFault;
use td_base::{LINE_LEN, LineBuf, NUMBER_LEN, print_number};

/// Appends the place of a refusal, and what is said of it.
fn put_line_at(path: &Path, said: &[u8], line: &mut LineBuf)
    requires { length line.old + length said.now + 100 ≤ LINE_LEN }
    ensures { line.new ≡ line.old ++ line_at path.now said.now }
{
    line.push_text(b"scenario ");
    line.push_text(path.as_slice());
    line.push_text(said);
}

/// Appends a number, and what stands behind it.
fn put_number(number: usize, behind: &[u8], line: &mut LineBuf)
    requires { length line.old + NUMBER_LEN + length behind.now ≤ LINE_LEN }
    ensures text { line.new ≡ line.old ++ (decimal number ++ behind.now) }
    ensures short { length line.new ≤ length line.old + NUMBER_LEN + length behind.now }
{
    let _ = print_number(number as u64, line);
    line.push_text(behind);
}

/// Puts the line of a refusal in place of what the buffer held.
#[tactic(auto, unfolding(crate::specs::Refusals::refusal_line))]
pub fn put_refusal_line(fault: &ScenarioFault, line: &mut LineBuf)
    /// The line of a refusal is the stated text, in place of what the buffer held; a path is a list of bytes.
    ensures { line.new ≡ refusal_line fault.now }
{
    line.clear();
    match fault {
        ScenarioFault::TooLong => line.push_text(b"scenario: too long\n"),
        ScenarioFault::NotToml => line.push_text(b"scenario: not toml\n"),
        ScenarioFault::Key { path } => put_line_at(path, b": key\n", line),
        ScenarioFault::Kind { path } => put_line_at(path, b": kind\n", line),
        ScenarioFault::Range { path } => put_line_at(path, b": range\n", line),
        ScenarioFault::Name { path } => put_line_at(path, b": name\n", line),
        ScenarioFault::EventText { index, place } => {
            line.push_text(b"scenario events[");
            put_number(*index, b"] at ", line);
            put_number(*place, b": event\n", line);
        }
        ScenarioFault::NoMemory => {}
    }
}
