//! The scenario that a text is, or its first refusal.
ghost use Rattle.std.specs.Prelude.{◌≡◌, ◌≢◌, ◌≤◌, ◌↔◌, Option, Some, None, length, option_map, IfOk, IfErr, ok_or};
ghost use Rattle.std.specs.List.{AllByRecursion};
ghost use Rattle.toml.specs.View.{table_view};
ghost use Rattle.events.specs.Events.{IsEvent};
ghost use Rattle.scenario.specs.declared.scenario_fault.ScenarioFault.TheVariants.{NotToml, NoMemory};
ghost use Rattle.scenario.specs.Scenario.{scenario_in, document_of, written, scenario_of};
ghost use Rattle.scenario.specs.Answers.{IsReadAs};
ghost use Rattle.scenario.specs.Told.{told};

use crate::event_lists::events_of;
use crate::fresh::natural;
use crate::node_tables::nodes_of;
use crate::place::Place;
use crate::row::Row;
use crate::scenario_fault::ScenarioFault;
use events::{EVENTS_MAX, Events};
use std::alloc::Global;
use toml::Table;
use topology::Topology;

/// The most bytes of a text.
pub const TEXT_MAX: usize = 4_194_304;

/// The keys of a text, in the order in which what stands at them is refused.
const SCENARIO_KEYS: [&str; 7] = [
    "seed", "server", "nat", "client", "relay", "native", "events",
];

/// What a text asks for.
#[derive(Drop)]
pub struct Scenario {
    /// Where the random words of the nodes come from.
    pub seed: u64,
    pub topology: Topology,
    pub events: Events,
}

/// The scenario of a table.
#[tactic(auto, unfolding(crate::specs::Scenario::scenario_in))]
fn scenario_in(alloc: Global, table: &Table) -> Result<Scenario, ScenarioFault>
    ensures value { IsReadAs told result (scenario_in (table_view table.now)) }
    ensures legal { IfOk result (λ s. AllByRecursion (IsEvent s.topology) s.events) }
{
    let text = Row {
        place: Place::Text,
        table,
    };
    text.only_keys(&SCENARIO_KEYS)?;
    let seed = text.ruled("seed", natural(text.integer("seed")?))?;
    let topology = nodes_of(alloc, &text)?;
    let events = events_of(alloc, &topology, &text)?;
    Ok(Scenario {
        seed,
        topology,
        events,
    })
}

/// The table that a text is in TOML.
fn document_of(alloc: Global, bytes: &[u8]) -> Result<Table, ScenarioFault>
    ensures { IsReadAs table_view result (ok_or (document_of bytes.now) NotToml) }
{
    let Ok(text) = std::str::from_utf8(bytes) else {
        return Err(ScenarioFault::NotToml);
    };
    match toml::table_from_str(alloc, text) {
        Ok(table) => Ok(table),
        Err(fault) if fault.is_memory() => Err(ScenarioFault::NoMemory),
        Err(_) => Err(ScenarioFault::NotToml),
    }
}

fn written(alloc: Global, bytes: &[u8]) -> Result<Scenario, ScenarioFault>
    ensures value { IsReadAs told result (written bytes.now) }
    ensures legal { IfOk result (λ s. AllByRecursion (IsEvent s.topology) s.events) }
{
    let table = document_of(alloc, bytes)?;
    scenario_in(alloc, &table)
}

/// Reads a text.
#[tactic(auto, unfolding(crate::specs::Scenario::scenario_of))]
pub fn read(alloc: Global, bytes: &[u8]) -> Result<Scenario, ScenarioFault>
    /// What is read is the scenario that the text is. It is stated in `Scenario.antt`, with the parts in
    /// `NodeTables.antt`, `NodeRows.antt`, `Fresh.antt`, `NodeName.antt` and `EventLists.antt`; an event by
    /// `events/EventText.antt`.
    ensures read { IfOk result (λ s. scenario_of bytes.now ≡ Ok (told s)) }
    /// A refusal is the text's first, with its path. So each text is read or refused as stated, given memory. It is
    /// stated in `Scenario.antt`; the order of the keys in `NodeRows.antt` and `NodeTables.antt`, a key's refusals in
    /// `Keys.antt`, the path in `Paths.antt`.
    /// Leaves open: `NoMemory`, which may come before any.
    ensures refused { IfErr result (λ e. e ≢ NoMemory → scenario_of bytes.now ≡ Err e) }
    /// A scenario that is read has at most 50,000 events.
    ensures few { IfOk result (λ s. length s.events ≤ EVENTS_MAX) }
    /// Each event of a scenario that is read is one that its nodes can be asked for, with numbers and lengths within
    /// their limits.
    /// Leaves open: that the event finds anything to do.
    ensures legal { IfOk result (λ s. AllByRecursion (IsEvent s.topology) s.events) }
{
    if bytes.len() > TEXT_MAX {
        return Err(ScenarioFault::TooLong);
    }
    written(alloc, bytes)
}
