//! The scenario of a file, played for where each packet went.
ghost use Rattle.std.specs.Prelude.{◌≤◌, length};
ghost use Rattle.std.specs.List.{AllByRecursion};
ghost use Rattle.events.specs.declared.event.TheConstants.{EVENTS_MAX};
ghost use Rattle.events.specs.Events.{IsEvent};
ghost use Rattle.scenario.specs.Told.{told};
ghost use Rattle.teredo_app.specs.Follow.{FollowEnds, follow_command};
ghost use Rattle.teredo_app.specs.ChainEndings.{TellsIn};

use crate::scenario_file::{scenario_in, status_of};
use commands::{NO_MEMORY, NOT_NESTED, end_with};
use events::EVENTS_MAX;
use follow_writer::FollowWriter;
use player::play;
use scenario::Scenario;
use std::alloc::Global;
use td_chain::{ChainFault, Chains};
use td_outside::{Sink, Source};

/// Plays a scenario with the chain that a text asks for, and tells where each packet goes. The memory of `room` is the wire's.
fn follow_in<K: Sink>(room: Vec<u8>, s: &Scenario, chain: &str, out: &mut K) -> u8
    requires few { length s.now.events ≤ EVENTS_MAX }
    requires legal { AllByRecursion (IsEvent s.now.topology) s.now.events }
    ensures { TellsIn follow_command (K.state out.old) (K.state out.new) (told s.now) chain.now result }
{
    let chains = match Chains::new(*room.allocator(), &s.topology, chain.as_bytes()) {
        Ok(chains) => chains,
        Err(ChainFault::Chain) => return end_with(out, b"follow: chain\n", NOT_NESTED),
        Err(ChainFault::NoMemory) => return NO_MEMORY,
    };
    let Ok(mut packets) = FollowWriter::new(*room.allocator(), &s.topology) else {
        return NO_MEMORY;
    };
    status_of(play(room, s.seed, chains, &s.events, &mut packets, out))
}

/// The command `follow FILE CHAIN`.
pub fn follow<S: Source, K: Sink>(
    alloc: Global,
    file: &str,
    chain: &str,
    src: &mut S,
    out: &mut K,
) -> u8
    ensures { FollowEnds (S.state src.old) (S.state src.new) (K.state out.old) (K.state out.new) file.now chain.now result }
{
    match scenario_in(alloc, file, src, out) {
        Ok((s, text)) => follow_in(text, &s, chain, out),
        Err(status) => status,
    }
}
