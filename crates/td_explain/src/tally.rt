//! The counts of a capture.
ghost use Rattle.std.specs.Prelude.{◌≡◌, ◌+◌, ◌<◌, ◌^◌, ◌++◌, List, [], ◌∷◌, length, count_by, OnOk};
ghost use Rattle.td_audit.specs.Left.{one_if};
ghost use Rattle.td_explain.specs.declared.said.Said.{Said};
ghost use Rattle.td_explain.specs.Tallies.{asked_said, answered_said, is_skip, is_dropped, is_datagram, draws_datagram, licensed_place, licenser, is_unlicensed, licensers, tally_of};
ghost use Rattle.td_explain.specs.Telling.{counts_said, AreBelow, Tallies, without_place};

use crate::answered::{Answered, Licensing};
use crate::question::{Drawn, Question};
use crate::said::Said;
use std::alloc::Global;
use td_base::NoMemory;

/// All records; those to the server and from it; those that hold no datagram; those to it that it drops; the places whose
/// output never came, or not in its turn; those from it that aren't licensed.
#[derive(Clone, Copy, Debug, PartialEq, Eq)]
pub struct Tally {
    pub packets: u64,
    pub asked: u64,
    pub answered: u64,
    pub skipped: u64,
    pub dropped: u64,
    pub silent: u64,
    pub unlicensed: u64,
}

/// The counts that grow by a record.
#[derive(Clone, Copy, Debug)]
pub(crate) struct Counts {
    pub packets: u64,
    pub asked: u64,
    pub answered: u64,
    pub skipped: u64,
    pub dropped: u64,
    pub unlicensed: u64,
}

/// One more, where it counts. No capture has so many records that the sum would stop growing.
fn more(number: u64, counted: bool) -> u64
    ensures { number + 1 < 2 ^ 64 → result ≡ number + one_if counted }
{
    if counted {
        number.saturating_add(1)
    } else {
        number
    }
}

/// A record as one with a datagram to the server.
fn asked_said(said: Said) -> Option<Question>
    ensures { result ≡ asked_said said }
{
    match said {
        Said::Skipped(_) => None,
        Said::Held { asked, .. } => asked,
    }
}

/// A record as one with a datagram from the server.
fn answered_said(said: Said) -> Option<Answered>
    ensures { result ≡ answered_said said }
{
    match said {
        Said::Skipped(_) => None,
        Said::Held { answered, .. } => answered,
    }
}

/// Whether a record holds no datagram.
fn is_skip(said: Said) -> bool
    ensures { result ≡ is_skip said }
{
    match said {
        Said::Skipped(_) => true,
        Said::Held { .. } => false,
    }
}

/// Whether the table drops a datagram.
fn is_dropped(asked: Option<Question>) -> bool
    ensures { result ≡ is_dropped asked }
{
    match asked {
        Some(question) => question.fate.is_drop(),
        None => false,
    }
}

/// Whether an output is a datagram.
fn is_datagram(drawn: Drawn) -> bool
    ensures { result ≡ is_datagram drawn }
{
    match drawn {
        Drawn::Datagram { .. } => true,
        Drawn::Nothing => false,
        Drawn::Six { .. } => false,
    }
}

/// Whether a datagram draws one.
fn draws_datagram(asked: Option<Question>) -> bool
    ensures { result ≡ draws_datagram asked }
{
    match asked {
        Some(question) => is_datagram(question.drawn),
        None => false,
    }
}

/// The place that licenses.
fn licensed_place(licensing: Licensing) -> Option<u64>
    ensures { result ≡ licensed_place licensing }
{
    match licensing {
        Licensing::Licensed { by } => Some(by),
        Licensing::Again { .. } => None,
        Licensing::Near { .. } => None,
        Licensing::Unasked => None,
    }
}

/// The place that licenses a datagram from the server.
fn licenser(answered: Option<Answered>) -> Option<u64>
    ensures { result ≡ licenser answered }
{
    match answered {
        Some(answer) => licensed_place(answer.licensing),
        None => None,
    }
}

/// Whether a datagram from the server isn't licensed.
fn is_unlicensed(answered: Option<Answered>) -> bool
    ensures { result ≡ is_unlicensed answered }
{
    match answered {
        Some(answer) => licensed_place(answer.licensing).is_none(),
        None => false,
    }
}

impl Counts {
    fn none() -> Counts
        ensures { result ≡ counts_said [] }
    {
        Counts {
            packets: 0,
            asked: 0,
            answered: 0,
            skipped: 0,
            dropped: 0,
            unlicensed: 0,
        }
    }

    /// These and one more record.
    fn with(self, said: Said) -> Counts
        ensures { (xs : List Said) → length xs + 1 < 2 ^ 64 → self ≡ counts_said xs → result ≡ counts_said (xs ++ said ∷ []) }
    {
        let asked = asked_said(said);
        let answered = answered_said(said);
        Counts {
            packets: more(self.packets, true),
            asked: more(self.asked, asked.is_some()),
            answered: more(self.answered, answered.is_some()),
            skipped: more(self.skipped, is_skip(said)),
            dropped: more(self.dropped, is_dropped(asked)),
            unlicensed: more(self.unlicensed, is_unlicensed(answered)),
        }
    }
}

/// What was counted up to now, and which places wait: their output is a datagram that hasn't come in its turn.
#[derive(Drop)]
pub(crate) struct Tallier {
    pub counts: Counts,
    waiting: Vec<bool>,
}

impl Tallier {
    pub(crate) fn none(alloc: Global) -> Tallier
        ensures { Tallies result [] }
    {
        Tallier {
            counts: Counts::none(),
            waiting: Vec::new(alloc),
        }
    }

    /// A place waits no more.
    fn end_wait(&mut self, place: Option<u64>)
        ensures waiting { self.new.waiting.items ≡ without_place place self.old.waiting.items }
        ensures counts { self.new.counts ≡ self.old.counts }
    {
        let Some(place) = place else {
            return;
        };
        let place = place as usize;
        if place < self.waiting.len() {
            self.waiting[place] = false;
        }
    }

    /// Counts one more record.
    pub(crate) fn count(&mut self, said: Said) -> Result<(), NoMemory>
        ensures { OnOk result ((xs : List Said) → length xs + 1 < 2 ^ 64 → AreBelow (length xs) (licensers (said ∷ []))
            → Tallies self.old xs → Tallies self.new (xs ++ said ∷ [])) }
    {
        self.end_wait(licenser(answered_said(said)));
        self.counts = self.counts.with(said);
        self.waiting.push(draws_datagram(asked_said(said)))?;
        Ok(())
    }

    /// How many places wait.
    fn silent(&self) -> usize
        ensures { result ≡ count_by (λ waits. waits) self.now.waiting.items }
    {
        self.waiting.iter().filter(|waits| **waits).count()
    }

    /// All that was counted.
    pub(crate) fn tally(&self) -> Tally
        ensures { (xs : List Said) → Tallies self.now xs → result ≡ tally_of xs }
    {
        Tally {
            packets: self.counts.packets,
            asked: self.counts.asked,
            answered: self.counts.answered,
            skipped: self.counts.skipped,
            dropped: self.counts.dropped,
            silent: self.silent() as u64,
            unlicensed: self.counts.unlicensed,
        }
    }
}
