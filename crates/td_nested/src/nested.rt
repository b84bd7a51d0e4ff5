//! A laboratory with NATs behind others.
ghost use Rattle.std.specs.Prelude.{◌≡◌, ◌≤◌, [], false, length, Err, None, IfSome, IfOk, IfErr, OnErr};
ghost use Rattle.events.specs.Events.{IsEvent};
ghost use Rattle.legal.specs.Lab.{draws};
ghost use Rattle.world.specs.declared.wire.TheConstants.{ENTRIES_MAX};
ghost use Rattle.world.specs.World.{StandsFor, IsAgain, EndsInTime, Steps, StopsFor, StopsAs};
ghost use Rattle.world.specs.Halted.{StopsAt};
ghost use Rattle.td_nested.specs.Nested.{IsNested, IsDueFault, is_left_out};

use crate::nested_chains::chains_of;
use crate::nested_fault::NestedFault;
use events::Event;
use history::{Stop, Turn};
use std::alloc::Global;
use std::marker::Model;
use topology::Topology;
use world::World;

/// Servers, clients, and NATs of which some are behind others. Contracts see it as the world that it holds.
#[derive(Drop)]
pub struct Nested<'a> {
    world: World<'a>,
}

impl<'a> Model for Nested<'a> {
    ghost use Rattle.world.specs.World.{WorldState};

    ghost Value = { WorldState };

    ghost view = { λ n. n.world };
}

impl<'a> Nested<'a> {
    /// The nodes at moment 0, in the chain that a text asks for, with nothing on the wire. The seed is that of the nodes'
    /// random words.
    pub fn new(
        alloc: Global,
        t: &'a Topology,
        chain: &[u8],
        seed: u64,
    ) -> Result<Nested<'a>, NestedFault>
        /// See `chains_of`: `topology`.
        ensures topology { IfOk result (λ n. n.topology ≡ t.now) }
        /// See `chains_of`: `topology`.
        ensures chain { IfOk result (λ n. IsNested t.now chain.now n.chain) }
        /// See `chains_of`: `topology`.
        ensures stands { IfOk result (λ n. StandsFor (draws seed) n []) }
        /// See `chains_of`: `topology`.
        ensures goes_on { IfOk result (λ n. n.stopped ≡ None) }
        /// See `chains_of`: `topology`.
        ensures due { IfErr result (λ why. IsDueFault t.now chain.now why) }
    {
        let chains = chains_of(alloc, t, chain)?;
        let world = World::new(alloc, t, chains, seed)?;
        Ok(Nested { world })
    }

    /// Plays the next record of event number `index`. After a `Stop` every later call answers the same.
    pub fn step(&mut self, index: u32, event: &Event) -> Result<Turn, Stop>
        requires event { IsEvent self.old.topology event.now }
        requires asked { is_left_out event.now ≡ false }
        requires again { self.old.stopped ≡ None → IsAgain self.old.going event.now }
        requires time { self.old.stopped ≡ None → EndsInTime self.old.began event.now }
        /// Whatever history it stands for, a step gives the record that follows in it with this chain, and it then
        /// stands for the history with it; a stop stays. It is as `World::step`.
        /// Needs: as that, and no event that it isn't asked for.
        ensures ok { IfOk result (λ turn. Steps self.old self.new index event.now turn) }
        /// See `ok`.
        ensures for_good { IfSome self.old.stopped (λ stop. (result ≡ Err stop) × (self.new ≡ self.old)) }
        /// See `ok`.
        ensures cause { self.old.stopped ≡ None → IfErr result (λ stop. StopsFor self.old index event.now stop) }
        /// See `ok`.
        ensures left { self.old.stopped ≡ None → OnErr result (StopsAt self.old self.new index event.now) }
        /// See `ok`.
        ensures err { IfErr result (λ stop. StopsAs self.old self.new stop) }
    {
        self.world.step(index, event)
    }

    /// How many entries the wire has.
    pub fn entries(&self) -> u32
        /// The world tells how many entries the wire has.
        ensures count { result ≡ length self.now.wire }
        /// See `count`.
        ensures most { result ≤ ENTRIES_MAX }
    {
        self.world.entries()
    }
}
