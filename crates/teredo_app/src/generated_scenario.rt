//! A generated scenario.
ghost use Rattle.std.specs.Prelude.{◌≡◌, ◌≤◌, length, IfOk};
ghost use Rattle.std.specs.List.{AllByRecursion};
ghost use Rattle.events.specs.Events.{IsEvent};
ghost use Rattle.scenario.specs.Told.{told};
ghost use Rattle.generator.specs.Generated.{generated};
ghost use Rattle.events.specs.declared.event.TheConstants.{EVENTS_MAX};

use events::EVENTS_MAX;
use generator::{Generated, generate};
use scenario::Scenario;
use std::alloc::Global;
use td_base::NoMemory;

/// The generated scenario, as a text would ask for it.
pub fn generated_scenario(alloc: Global, seed: u64, count: u32) -> Result<Scenario, NoMemory>
    requires { count ≤ EVENTS_MAX }
    ensures value { IfOk result (λ s. told s ≡ generated seed count) }
    ensures few { IfOk result (λ s. length s.events ≤ EVENTS_MAX) }
    ensures legal { IfOk result (λ s. AllByRecursion (IsEvent s.topology) s.events) }
{
    let Generated { topology, events } = generate(alloc, seed, count)?;
    Ok(Scenario {
        seed,
        topology,
        events,
    })
}
