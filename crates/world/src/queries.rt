//! What is asked of a world, and changes nothing of it.
ghost use Rattle.std.specs.Prelude.{◌≡◌, ◌≤◌, ◌<◌, List, ℕ, option_map, slice_get, IfSome};
ghost use Rattle.td_base.specs.declared.millis.TheConstants.{CLOCK_END_MS};
ghost use Rattle.topology.specs.Topology.{node_at};
ghost use Rattle.history.specs.Full.{Full, udp};
ghost use Rattle.legal.specs.Lab.{Draws};
ghost use Rattle.legal.specs.Past.{now, was_delivered};
ghost use Rattle.legal.specs.Emit.{route};
ghost use Rattle.lab_nodes.specs.PlayedNode.{row_of, IsReady};
ghost use Rattle.world.specs.Route.{by_route, IsThere};
ghost use Rattle.world.specs.World.{StandsFor, lab_in};

use crate::lookup::Lookup;
use crate::route::Route;
use crate::world::World;
use lab_nodes::PlayedNode;
use td_base::{Ep, Millis};
use td_chain::Chains;
use topology::Topology;

/// The node of a number, if there is one.
fn node_in(nodes: &[PlayedNode], number: u16) -> Option<&PlayedNode>
    ensures { option_map (λ node. node.now) result ≡ slice_get nodes.now number }
{
    nodes.get(usize::from(number))
}

impl<'a> World<'a> {
    /// The nodes of the scenario, and who is where.
    pub fn topology(&self) -> &'a Topology
        /// A world tells its topology, its moment, each node by its number with what is kept of it, and its NATs, and
        /// changes nothing. What is kept stands for the history by `StandsFor`. It is stated in `World.antt`, with what
        /// is kept in `lab_nodes/PlayedNode.antt` and `td_chain/Chains.antt`.
        ensures { result.now ≡ self.now.topology }
    {
        self.topology
    }

    /// The moment of the last record.
    pub fn moment(&self) -> Millis
        /// See `World::topology`.
        ensures value { result.0 ≡ self.now.moment }
        /// The moment of a world is that of each history that it stands for, and one of a clock.
        ensures kept { (d : Draws) (H : List Full) → StandsFor d self.now H → result.0 ≡ now H }
        /// See `kept`.
        ensures early { result.0 < CLOCK_END_MS }
    {
        self.moment
    }

    /// Whether the entry of a number was delivered.
    pub fn was_delivered(&self, number: u32) -> bool
        /// Whether a world's entry was delivered is so in each history that the world stands for; of a number that no entry
        /// has, none was.
        ensures { (d : Draws) (H : List Full) → StandsFor d self.now H → result ≡ was_delivered number H }
    {
        self.wire.was_delivered(number as usize)
    }

    /// The node of a number, if there is one, with what is kept of it: of a client its address, its phase, its peers and when
    /// it is due.
    pub fn node(&self, number: u16) -> Option<&PlayedNode>
        /// See `World::topology`.
        ensures kept { option_map (λ node. node.now) result ≡ slice_get self.now.nodes number }
        /// See `World::topology`.
        ensures row { option_map (λ node. row_of node.now) result ≡ node_at self.now.topology number }
        /// See `World::topology`.
        ensures ready { IfSome result (λ node. IsReady self.now.moment node.now) }
    {
        node_in(self.nodes.as_slice(), number)
    }

    /// What is kept of the NATs, and which of them are behind others.
    pub fn nats(&self) -> &Chains<'a>
        /// See `World::topology`.
        ensures kept { result.now ≡ self.now.nats }
        /// See `World::topology`.
        ensures same { result.now.topology ≡ self.now.topology }
        /// See `World::topology`.
        ensures chain { result.now.chain ≡ self.now.chain }
        /// See `World::topology`.
        ensures clock { result.now.moment ≤ self.now.moment }
    {
        &self.nats
    }

    /// The route of a datagram that is delivered now. The node of a number is looked at first, whichever it is.
    pub fn route(&self, src: Ep, dst: Ep, number: u16) -> Route
        /// The world tells the route that a datagram has which is delivered now, for every history that it stands for.
        /// This holds whichever node is looked at first. It is stated in `Route.antt`, with the route in
        /// `legal/Emit.antt`.
        ensures there { IsThere self.now.topology result }
        /// See `there`.
        ensures route { (d : Draws) (H : List Full) (bytes : List ℕ) → StandsFor d self.now H
            → by_route self.now.topology result ≡ route (lab_in d self.now) H self.now.moment (udp src dst bytes) }
    {
        let lookup = Lookup {
            topology: self.topology,
            nats: &self.nats,
            now: self.moment,
        };
        lookup.likely_route(src, dst, number)
    }
}
