//! What a node's loads say of a record.
ghost use Rattle.std.specs.Prelude.{◌≡◌, ◌++◌, ◌∷◌, [], is_some, OnOk, IfOk};
ghost use Rattle.legal.specs.Past.{is_restart};
ghost use Rattle.loads.specs.Sayings.{gives_up, is_changed_address};
ghost use Rattle.load_keeper.specs.Kept.{node_kept, loads_known_or_none, loads_waiting, loads_held};
ghost use Rattle.load_keeper.specs.Hearing.{loads_released, peers_dropped, says_to_end, says_of_held, says_of_dropped, says_of_ended, late_source, says_by};

use crate::held_load::HeldLoad;
use crate::kept_load::KeptLoad;
use crate::node_loads::NodeLoads;
use crate::says::{mark_at, say_given, say_held, say_released, say_to_end};
use crate::ways::{
    ends_holding, gives_up, hands_over_held, is_changed_address, is_restart, releases_all,
};
use history::Record;
use loads::{Load, Saying};
use std::alloc::Global;
use td_base::{Ep, Ip6, Millis, NoMemory};
use teredo_node::Fate;

/// Appends what is kept, if it waits for a peer.
fn put_waiting(one: &KeptLoad, who: Ip6, loads: &mut Vec<Option<Load>>) -> Result<(), NoMemory>
    ensures { OnOk result (loads.new.items ≡ loads.old.items ++ loads_waiting (one.now ∷ []) who) }
{
    if !(who == one.who) {
        return Ok(());
    }
    match one.from {
        None => {
            loads.push(one.load)?;
            Ok(())
        }
        Some(_) => Ok(()),
    }
}

/// Appends what is kept, if it is held of a peer.
fn put_held(one: &KeptLoad, who: Ip6, held: &mut Vec<HeldLoad>) -> Result<(), NoMemory>
    ensures { OnOk result (held.new.items ≡ held.old.items ++ loads_held (one.now ∷ []) who) }
{
    if !(who == one.who) {
        return Ok(());
    }
    match one.from {
        None => Ok(()),
        Some(from) => {
            held.push(HeldLoad {
                from,
                load: one.load,
            })?;
            Ok(())
        }
    }
}

/// What waits for a peer.
fn loads_waiting(alloc: Global, kept: &[KeptLoad], who: Ip6) -> Result<Vec<Option<Load>>, NoMemory>
    ensures { IfOk result (λ loads. loads.items ≡ loads_waiting kept.now who) }
{
    let mut loads = Vec::new(alloc);
    for one in kept {
        put_waiting(one, who, &mut loads)?;
    }
    Ok(loads)
}

/// What is held of a peer.
fn loads_held(alloc: Global, kept: &[KeptLoad], who: Ip6) -> Result<Vec<HeldLoad>, NoMemory>
    ensures { IfOk result (λ held. held.items ≡ loads_held kept.now who) }
{
    let mut held = Vec::new(alloc);
    for one in kept {
        put_held(one, who, &mut held)?;
    }
    Ok(held)
}

/// Where what is handed over came from, where something is.
fn late_source(fate: Fate, from: Option<Ep>) -> Option<Ep>
    ensures { result ≡ late_source fate from }
{
    if hands_over_held(fate) { from } else { None }
}

impl NodeLoads {
    /// What waits for a peer, where it is listed.
    fn waiting(&self, now: Millis, who: Ip6) -> Result<Vec<Option<Load>>, NoMemory>
        ensures { IfOk result (λ loads. loads.items ≡ (loads_known_or_none (node_kept self.now) now.0 who).waiting) }
    {
        let alloc = *self.kept.allocator();
        if self.kept.is_empty() {
            return Ok(Vec::new(alloc));
        }
        if !self.lists(now, who) {
            return Ok(Vec::new(alloc));
        }
        loads_waiting(alloc, &self.kept, who)
    }

    /// What is held of a peer, where it is listed.
    fn held(&self, now: Millis, who: Ip6) -> Result<Vec<HeldLoad>, NoMemory>
        ensures { IfOk result (λ held. held.items ≡ (loads_known_or_none (node_kept self.now) now.0 who).held) }
    {
        let alloc = *self.kept.allocator();
        if self.kept.is_empty() {
            return Ok(Vec::new(alloc));
        }
        if !self.lists(now, who) {
            return Ok(Vec::new(alloc));
        }
        loads_held(alloc, &self.kept, who)
    }

    /// What is released to a peer by this fate.
    fn released(&self, fate: Fate, now: Millis, who: Ip6) -> Result<Vec<Option<Load>>, NoMemory>
        ensures { IfOk result (λ loads. loads.items ≡ loads_released fate (node_kept self.now) now.0 who) }
    {
        if !releases_all(fate) {
            return Ok(Vec::new(*self.kept.allocator()));
        }
        self.waiting(now, who)
    }

    /// The peers that are dropped, where all are.
    fn dropped(&self, drops: bool, now: Millis) -> Result<Vec<Ip6>, NoMemory>
        ensures { IfOk result (λ peers. peers.items ≡ peers_dropped drops (node_kept self.now) now.0) }
    {
        if !drops {
            return Ok(Vec::new(*self.kept.allocator()));
        }
        self.peers_in_order(now)
    }

    /// Appends what is said of what waits for a peer, and is dropped.
    fn say_waiting(&self, now: Millis, who: Ip6, said: &mut Vec<Saying>) -> Result<(), NoMemory>
        ensures { OnOk result (said.new.items ≡ said.old.items ++ says_to_end (loads_known_or_none (node_kept self.now) now.0 who).waiting) }
    {
        let loads = self.waiting(now, who)?;
        say_to_end(&loads, said)
    }

    /// Appends what is said of all that waits and is dropped.
    fn say_dropped(
        &self,
        gives: bool,
        now: Millis,
        who: Ip6,
        dropped: &[Ip6],
        said: &mut Vec<Saying>,
    ) -> Result<(), NoMemory>
        ensures { OnOk result (said.new.items ≡ said.old.items ++ says_of_dropped gives (node_kept self.now) now.0 who dropped.now) }
    {
        if gives {
            return self.say_waiting(now, who, said);
        }
        for peer in dropped {
            self.say_waiting(now, *peer, said)?;
        }
        Ok(())
    }

    /// Appends what is said of what is held of a peer, and ends.
    fn say_ending(
        &self,
        late: Option<Ep>,
        now: Millis,
        who: Ip6,
        said: &mut Vec<Saying>,
    ) -> Result<(), NoMemory>
        ensures { OnOk result (said.new.items ≡ said.old.items ++ says_of_held late (loads_known_or_none (node_kept self.now) now.0 who).held) }
    {
        let held = self.held(now, who)?;
        say_held(late, &held, said)
    }

    /// Appends what is said of all that is held and ends.
    fn say_ended(
        &self,
        ends: bool,
        late: Option<Ep>,
        now: Millis,
        who: Ip6,
        dropped: &[Ip6],
        said: &mut Vec<Saying>,
    ) -> Result<(), NoMemory>
        ensures { OnOk result (said.new.items ≡ said.old.items ++ says_of_ended ends late (node_kept self.now) now.0 who dropped.now) }
    {
        if ends {
            return self.say_ending(late, now, who, said);
        }
        for peer in dropped {
            self.say_ending(late, now, *peer, said)?;
        }
        Ok(())
    }

    /// Appends all that a record says, and gives what it releases.
    pub fn say_all(
        &self,
        record: &Record,
        load: Option<Load>,
        who: Ip6,
        from: Option<Ep>,
        said: &mut Vec<Saying>,
    ) -> Result<Vec<Option<Load>>, NoMemory>
        ensures said { OnOk result (said.new.items ≡ said.old.items ++ says_by record.now load who from (node_kept self.now) (is_some record.now.handed)) }
        ensures released { IfOk result (λ loads. loads.items ≡ loads_released record.now.fate (node_kept self.now) record.now.moment.0 who) }
    {
        let fate = record.fate;
        let now = record.moment;
        let marks = record.marks.as_slice();
        let released = self.released(fate, now, who)?;
        let dropped = self.dropped(is_restart(record.act) || is_changed_address(fate), now)?;
        let mark = mark_at(marks, released.len());
        say_given(fate, load, mark, record.handed.is_some(), said)?;
        say_released(marks, &released, said)?;
        self.say_dropped(gives_up(fate), now, who, &dropped, said)?;
        let late = late_source(fate, from);
        self.say_ended(ends_holding(fate), late, now, who, &dropped, said)?;
        Ok(released)
    }
}
