//! The generated scenario.
ghost use Rattle.std.specs.Prelude.{◌≡◌, ◌≤◌, ◌<◌, length, IfOk};
ghost use Rattle.std.specs.List.{AllByRecursion};
ghost use Rattle.events.specs.declared.event.TheConstants.{EVENTS_MAX};
ghost use Rattle.events.specs.Events.{IsEvent};
ghost use Rattle.qualify.specs.Generator.{words_of, after_words};
ghost use Rattle.generator.specs.GeneratedNodes.{generated_nodes};
ghost use Rattle.generator.specs.GeneratedEvent.{generated_event};
ghost use Rattle.generator.specs.Generated.{generated_events};

use crate::event::generated_event;
use crate::nodes::generated_nodes;
use crate::words::events_rng;
use events::{Event, Events};
use rand_chacha::ChaCha20Rng;
use rand_core::utils::NextWord;
use std::alloc::Global;
use td_base::NoMemory;
use topology::Topology;

/// The nodes and the events.
#[derive(Drop)]
pub struct Generated {
    pub topology: Topology,
    pub events: Events,
}

/// Event `index`, of the next three words.
#[tactic(auto, unfolding(qualify::specs::Generator::words_of, qualify::specs::Generator::after_words))]
fn next_event(alloc: Global, index: u32, rng: &mut ChaCha20Rng) -> Result<Event, NoMemory>
    requires { index < EVENTS_MAX }
    ensures value { IfOk result (λ e. e ≡ generated_event index (words_of rng.old 0) (words_of rng.old 1) (words_of rng.old 2)) }
    ensures place { rng.new ≡ after_words 3 rng.old }
{
    let a = rng.next_word();
    let b = rng.next_word();
    let c = rng.next_word();
    generated_event(alloc, index, a, b, c)
}

/// The events.
fn generated_events(alloc: Global, seed: u64, count: u32) -> Result<Events, NoMemory>
    requires { count ≤ EVENTS_MAX }
    ensures { IfOk result (λ es. es ≡ generated_events seed count) }
{
    qualify::words_go_on();
    qualify::seed_gives_words();
    let mut rng = events_rng(seed);
    let mut events = Events::new(alloc);
    for index in 0..count {
        events.push(next_event(alloc, index, &mut rng)?)?;
    }
    Ok(events)
}

/// The scenario of a seed, with so many events.
pub fn generate(alloc: Global, seed: u64, count: u32) -> Result<Generated, NoMemory>
    requires few { count ≤ EVENTS_MAX }
    /// What is made are the seventeen stated nodes. They keep the rules of a topology, as every `Topology` does.
    ensures nodes { IfOk result (λ g. g.topology ≡ generated_nodes) }
    /// Event i is the stated one, of words 3i, 3i + 1 and 3i + 2 of a stream that no node draws from; there are as many
    /// as were asked for. It is stated in `Generated.antt`, an event in `GeneratedEvent.antt`, the stream in
    /// `legal/Legal.antt`.
    /// Needs: at most 50,000 of them. The stream is ChaCha20's (RFC 8439, with 64 bits each for counter and number),
    /// and the definition is the one that the nodes' own words have, at the number 2^64 - 1.
    ensures events { IfOk result (λ g. g.events ≡ generated_events seed count) }
    /// See `events`.
    ensures count { IfOk result (λ g. length g.events ≡ count) }
    /// Each event is one that these nodes can be asked for.
    /// Leaves open: that the event finds anything to do.
    ensures legal { IfOk result (λ g. AllByRecursion (IsEvent g.topology) g.events) }
{
    Ok(Generated {
        topology: generated_nodes(alloc)?,
        events: generated_events(alloc, seed, count)?,
    })
}
