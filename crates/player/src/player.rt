//! The player of a scenario.
ghost use Rattle.std.specs.Prelude.{◌≡◌, ◌≤◌, [], length};
ghost use Rattle.std.specs.List.{AllByRecursion};
ghost use Rattle.events.specs.declared.event.TheConstants.{EVENTS_MAX};
ghost use Rattle.events.specs.Events.{IsEvent};
ghost use Rattle.td_chain.specs.Chains.{ChainsStandFor};
ghost use Rattle.player.specs.Endings.{IsPlayed};

use crate::hear_fault::HearFault;
use crate::listener::Listener;
use events::{EVENTS_MAX, Events};
use history::Stop;
use td_base::{Millis, NoMemory};
use td_chain::Chains;
use td_outside::{Failed, Sink};
use topology::Topology;
use world::{World, blank};

/// Why a scenario was not played to its end.
#[derive(Clone, Copy, Debug, PartialEq, Eq)]
pub enum PlayFault {
    /// The sink failed.
    Failed,
    /// Memory ran out before the first record, or for the next one, or to hear of it.
    NoMemory,
    /// The next record would make more entries of the wire than it holds.
    WireFull,
}

impl From<Failed> for PlayFault {
    ghost use Rattle.player.specs.declared.player.PlayFault.TheVariants as faults;

    ghost from_gives = { λ _ e. e ≡ faults.Failed };

    fn from(_: Failed) -> Self {
        PlayFault::Failed
    }
}

impl From<NoMemory> for PlayFault {
    ghost use Rattle.player.specs.declared.player.PlayFault.TheVariants as faults;

    ghost from_gives = { λ _ e. e ≡ faults.NoMemory };

    fn from(_: NoMemory) -> Self {
        PlayFault::NoMemory
    }
}

impl From<HearFault> for PlayFault {
    ghost use Rattle.player.specs.PlayFaults.{unheard};

    ghost from_gives = { λ fault e. e ≡ unheard fault };

    fn from(fault: HearFault) -> Self {
        match fault {
            HearFault::Failed => PlayFault::Failed,
            HearFault::NoMemory => PlayFault::NoMemory,
        }
    }
}

/// Plays the scenario of a seed, nodes and events to its end, with those NATs behind others. Each record is heard as soon as
/// it is made. The memory of `room`, whose bytes are dropped, is the wire's: that of the text, say, which was read and isn't
/// needed any more.
pub fn play<L: Listener, K: Sink>(
    room: Vec<u8>,
    seed: u64,
    chains: Chains<'_>,
    events: &Events,
    listener: &mut L,
    out: &mut K,
) -> Result<(), PlayFault>
    requires few { length events.now ≤ EVENTS_MAX }
    requires legal { AllByRecursion (IsEvent chains.topology) events.now }
    requires first { ChainsStandFor chains (λ k. []) }
    requires moment { chains.moment ≡ 0 }
    requires fresh { L.keeps listener.old chains.topology [] }
    /// - `play` writes what the listener writes of the one legal history in which these NATs are behind others, or
    ///   answers why it can't go on, with a first part of that written. Nothing failed and all lines were written; the
    ///   sink failed, and a first part was written; memory ran out before the first line, or for a record that may need
    ///   some, and the lines before it were written; or the next record would make too long a wire, and the lines
    ///   before it were written with those that say so.
    ///   Needs: at most 50,000 events that the nodes can be asked for; NATs at moment 0 to which nothing has happened;
    ///   a listener that has heard nothing; told, for what was written.
    ///   Leaves open: when there is too little memory.
    /// - Each history that it speaks of keeps within the wire: `WireFull` comes exactly where the next record would
    ///   make entry 65,537.
    ensures { IsPlayed L.account (record { seed = seed; topology = chains.entry.topology; events = events.now }) chains.entry.chain
        (K.state out.old) (K.state out.new) result }
{
    let topology = chains.topology();
    let mut world = World::in_room(room, topology, chains, seed)?;
    listener.begin(out)?;
    let mut said = blank(0, Millis(0));
    for (index, event) in events.as_slice().iter().enumerate() {
        // It ends, since less is left after each record that has further ones.
        loop {
            let more = match world.step_into(index as u32, event, &mut said) {
                Ok(more) => more,
                Err(stop) => match stop {
                    Stop::NoMemory => return Err(PlayFault::NoMemory),
                    Stop::WireFull => {
                        listener.break_off(out)?;
                        return Err(PlayFault::WireFull);
                    }
                },
            };
            listener.hear(&world, event, &said, out)?;
            if !more {
                break;
            }
        }
    }
    listener.end(&world, out)?;
    Ok(())
}

/// Plays the scenario of a seed, nodes and events to its end, with no NAT behind another one.
pub fn play_flat<L: Listener, K: Sink>(
    room: Vec<u8>,
    seed: u64,
    topology: &Topology,
    events: &Events,
    listener: &mut L,
    out: &mut K,
) -> Result<(), PlayFault>
    requires few { length events.now ≤ EVENTS_MAX }
    requires legal { AllByRecursion (IsEvent topology.now) events.now }
    requires fresh { L.keeps listener.old topology.now [] }
    /// With no NAT behind another one, the same.
    ensures { IsPlayed L.account (record { seed = seed; topology = topology.now; events = events.now }) [] (K.state out.old) (K.state out.new) result }
{
    let chains = Chains::alone(*room.allocator(), topology)?;
    play(room, seed, chains, events, listener, out)
}
