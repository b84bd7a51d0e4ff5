//! The scenario of a file, played with NATs behind others.
ghost use Rattle.std.specs.Prelude.{◌≡◌, ◌≤◌, [], None, Some, length, IfOk, IfErr};
ghost use Rattle.std.specs.List.{AllByRecursion, position};
ghost use Rattle.events.specs.declared.event.TheConstants.{EVENTS_MAX};
ghost use Rattle.events.specs.Events.{IsEvent};
ghost use Rattle.td_chain.specs.Chains.{ChainsStandFor};
ghost use Rattle.td_nested.specs.Nested.{is_left_out};
ghost use Rattle.scenario.specs.Told.{told};
ghost use Rattle.teredo_app.specs.Nested.{IsPlayedIn, NestedEnds};
ghost use Rattle.teredo_app.specs.NestedEndings.{NoChainsFor, PlaysIn, no_chains};

use crate::nested_line::{NotNested, put_not_nested_line};
use crate::scenario_file::{scenario_in, status_of};
use commands::{NO_MEMORY, NOT_NESTED, end_with};
use events::{EVENTS_MAX, Event};
use player::{ReportWriter, play};
use scenario::Scenario;
use std::alloc::Global;
use td_base::LineBuf;
use td_chain::Chains;
use td_nested::{NestedFault, chains_of, is_left_out};
use td_outside::{Sink, Source};

/// Why a scenario isn't played.
#[derive(Clone, Copy, Debug)]
enum NoChains {
    Refused(NotNested),
    NoMemory,
}

impl From<NestedFault> for NoChains {
    ghost from_gives = { λ fault why. why ≡ no_chains fault };

    fn from(fault: NestedFault) -> Self {
        match fault {
            NestedFault::Chain => NoChains::Refused(NotNested::Chain),
            NestedFault::Nodes => NoChains::Refused(NotNested::Nodes),
            NestedFault::NoMemory => NoChains::NoMemory,
        }
    }
}

/// The number of the first event that is left out.
fn first_left_out(events: &[Event]) -> Option<usize>
    ensures { result ≡ position is_left_out events.now }
{
    events.iter().position(|event| is_left_out(event))
}

/// The NATs of a scenario, in the chain that a text asks for.
fn chains_for<'a>(alloc: Global, s: &'a Scenario, chain: &str) -> Result<Chains<'a>, NoChains>
    requires few { length s.now.events ≤ EVENTS_MAX }
    ensures topology { IfOk result (λ c. c.topology ≡ s.now.topology) }
    ensures played { IfOk result (λ c. IsPlayedIn (told s.now) chain.now c.chain) }
    ensures moment { IfOk result (λ c. c.moment ≡ 0) }
    ensures stands { IfOk result (λ c. ChainsStandFor c (λ k. [])) }
    ensures none { IfErr result (λ why. NoChainsFor (told s.now) chain.now why) }
{
    let chains = chains_of(alloc, &s.topology, chain.as_bytes())?;
    match first_left_out(s.events.as_slice()) {
        Some(index) => Err(NoChains::Refused(NotNested::Event {
            index: index as u32,
        })),
        None => Ok(chains),
    }
}

/// Plays a scenario with the chain that a text asks for. The memory of `room` is the wire's.
fn play_in<K: Sink>(room: Vec<u8>, s: &Scenario, chain: &str, out: &mut K) -> u8
    requires few { length s.now.events ≤ EVENTS_MAX }
    requires legal { AllByRecursion (IsEvent s.now.topology) s.now.events }
    ensures { PlaysIn (K.state out.old) (K.state out.new) (told s.now) chain.now result }
{
    let chains = match chains_for(*room.allocator(), s, chain) {
        Ok(chains) => chains,
        Err(NoChains::NoMemory) => return NO_MEMORY,
        Err(NoChains::Refused(why)) => {
            let mut line = LineBuf::new();
            put_not_nested_line(why, &mut line);
            return end_with(out, line.as_slice(), NOT_NESTED);
        }
    };
    let mut report = ReportWriter::new(&s.topology);
    status_of(play(room, s.seed, chains, &s.events, &mut report, out))
}

/// The command `nested FILE CHAIN`.
pub fn nested<S: Source, K: Sink>(
    alloc: Global,
    file: &str,
    chain: &str,
    src: &mut S,
    out: &mut K,
) -> u8
    ensures { NestedEnds (S.state src.old) (S.state src.new) (K.state out.old) (K.state out.new) file.now chain.now result }
{
    match scenario_in(alloc, file, src, out) {
        Ok((s, text)) => play_in(text, &s, chain, out),
        Err(status) => status,
    }
}
