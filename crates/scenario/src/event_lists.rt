//! The events of a text.
ghost use Rattle.std.specs.Prelude.{◌≡◌, ℕ, List, Some, None, length, IfOk, IfSome, IfNone, IsSome, is_some};
ghost use Rattle.std.specs.List.{list_all, AllByRecursion};
ghost use Rattle.toml.specs.Data.{as_str};
ghost use Rattle.toml.specs.View.{view, items_view, table_view};
ghost use Rattle.events.specs.Events.{IsEvent};
ghost use Rattle.events.specs.EventText.{event_of};
ghost use Rattle.scenario.specs.EventLists.{texts_of, event_at, each_event, few_events, events_of};
ghost use Rattle.scenario.specs.declared.place.Place.TheVariants.{Text};
ghost use Rattle.scenario.specs.Answers.{IsReadAs};

use crate::place::Place;
use crate::row::Row;
use crate::scenario_fault::ScenarioFault;
use events::{EVENTS_MAX, Event, EventFault, Events, read_event};
use std::alloc::Global;
use toml::Value;
use topology::Topology;

/// The event of the text of this number.
fn event_at(
    alloc: Global,
    topology: &Topology,
    index: usize,
    text: &str,
) -> Result<Event, ScenarioFault>
    ensures value { IsReadAs (λ e. e) result (event_at index (event_of topology.now text.now)) }
    ensures legal { IfOk result (λ e. IsEvent topology.now e) }
{
    match read_event(alloc, topology, text.as_bytes()) {
        Ok(event) => Ok(event),
        Err(EventFault::At { place }) => Err(ScenarioFault::EventText { index, place }),
        Err(EventFault::NoMemory) => Err(ScenarioFault::NoMemory),
    }
}

fn are_texts(values: &[Value]) -> bool
    ensures { result ≡ list_all (λ value. is_some (as_str (view value))) values.now }
{
    values.iter().all(|value| value.as_str().is_some())
}

/// The values, where each is a text.
fn all_texts(values: &[Value]) -> Option<&[Value]>
    ensures some { IfSome result (λ vs. (vs.now ≡ values.now) × IsSome (texts_of (items_view values.now))) }
    ensures none { IfNone result (texts_of (items_view values.now) ≡ None) }
{
    if !are_texts(values) {
        return None;
    }
    Some(values)
}

/// The events of texts in order.
fn each_event(alloc: Global, topology: &Topology, values: &[Value]) -> Result<Events, ScenarioFault>
    requires { IsSome (texts_of (items_view values.now)) }
    ensures value { (texts : List (List ℕ)) → texts_of (items_view values.now) ≡ Some texts → IsReadAs (λ es. es) result (each_event topology.now 0 texts) }
    ensures legal { IfOk result (λ es. AllByRecursion (IsEvent topology.now) es) }
{
    let mut events = Events::new(alloc);
    for (index, value) in values.iter().enumerate() {
        let Some(text) = value.as_str() else {
            continue;
        };
        events.push(event_at(alloc, topology, index, text)?)?;
    }
    Ok(events)
}

/// The events of texts that aren't too many.
fn few_events(alloc: Global, topology: &Topology, texts: &[Value]) -> Result<Events, ScenarioFault>
    requires { IsSome (texts_of (items_view texts.now)) }
    ensures value { (ts : List (List ℕ)) → texts_of (items_view texts.now) ≡ Some ts → IsReadAs (λ es. es) result (few_events topology.now ts) }
    ensures legal { IfOk result (λ es. AllByRecursion (IsEvent topology.now) es) }
{
    if texts.len() > EVENTS_MAX {
        return Err(ScenarioFault::Range {
            path: Place::Text.key_path("events"),
        });
    }
    each_event(alloc, topology, texts)
}

/// The events of the list of texts.
#[tactic(auto, unfolding(crate::specs::EventLists::events_of))]
pub(crate) fn events_of(
    alloc: Global,
    topology: &Topology,
    text: &Row,
) -> Result<Events, ScenarioFault>
    requires { text.now.place ≡ Text }
    ensures value { IsReadAs (λ es. es) result (events_of topology.now (table_view text.now.table.now)) }
    ensures legal { IfOk result (λ es. AllByRecursion (IsEvent topology.now) es) }
{
    let values = text.list("events")?;
    let texts = text.typed("events", all_texts(values))?;
    few_events(alloc, topology, texts)
}
