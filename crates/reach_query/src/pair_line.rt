//! The lines on pairs of hosts.
ghost use Rattle.std.specs.Prelude.{◌≡◌, ◌+◌, ◌≤◌, ◌++◌, List, length, decimal, Some};
ghost use Rattle.report.specs.Lines.{node_text};
ghost use Rattle.theory_reaching.specs.Words.{reach_word};
ghost use Rattle.theory_reaching.specs.ReachLines.{Said, said_line, said_total};
ghost use Rattle.reach_query.specs.PairLines.{counted_pairs};

use crate::pair_counts::PairCounts;
use td_base::{LINE_LEN, LineBuf, NUMBER_LEN, print_number};
use theory_reaching::Reach;
use topology::{NAME_LEN, Topology};

/// The most bytes of a word.
const WORD_LEN: usize = 9;

/// Appends the name of the node with that number.
fn put_name(topology: &Topology, number: u16, line: &mut LineBuf)
    requires { length line.old + NAME_LEN ≤ LINE_LEN }
    ensures text { line.new ≡ line.old ++ node_text topology.now (Some number) }
    ensures short { length line.new ≤ length line.old + NAME_LEN }
{
    match topology.name_at(number) {
        None => line.push_text(b"-"),
        Some(name) => line.push_text(name.as_slice()),
    }
}

/// A word.
#[tactic(auto, using(crate::proofs::WordLengths::word_short))]
fn word_of(word: Reach) -> &'static str
    ensures word { result.now ≡ reach_word word }
    ensures short { length result.now ≤ WORD_LEN }
{
    word.word()
}

/// Appends a number.
fn put_count(count: u64, line: &mut LineBuf)
    requires { length line.old + NUMBER_LEN ≤ LINE_LEN }
    ensures text { line.new ≡ line.old ++ decimal count }
    ensures short { length line.new ≤ length line.old + NUMBER_LEN }
{
    let _ = print_number(count, line);
}

/// Puts the line on two nodes in place of what the buffer held: their names and the word.
pub(crate) fn pair_line(topology: &Topology, from: u16, to: u16, word: Reach, line: &mut LineBuf)
    ensures { line.new ≡ said_line topology.now (record { from = from; to = to; said = word }) }
{
    line.clear();
    put_name(topology, from, line);
    line.push_text(b" ");
    put_name(topology, to, line);
    line.push_text(b" ");
    line.push_text(word_of(word).as_bytes());
    line.push_text(b"\n");
}

/// Puts the line of the counts in place of what the buffer held.
pub(crate) fn pairs_total(counts: &PairCounts, line: &mut LineBuf)
    ensures { (ps : List Said) → counts.now ≡ counted_pairs ps → line.new ≡ said_total ps }
{
    line.clear();
    line.push_text(b"total pairs ");
    put_count(counts.pairs, line);
    line.push_text(b" within ");
    put_count(counts.within, line);
    line.push_text(b" shut ");
    put_count(counts.shut, line);
    line.push_text(b" unsaid ");
    put_count(counts.unsaid, line);
    line.push_text(b"\n");
}
