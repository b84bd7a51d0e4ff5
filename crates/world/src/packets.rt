//! Hosts hand in packets.
ghost use Rattle.std.specs.Prelude.{◌≡◌, ◌≤◌, ◌<◌, List, [], length, None, OnErr};
ghost use Rattle.topology.specs.Topology.{node_at};
ghost use Rattle.events.specs.declared.event.Event.{Event};
ghost use Rattle.events.specs.declared.event.Event.TheVariants as event;
ghost use Rattle.events.specs.declared.event.TheConstants.{BODY_MAX};
ghost use Rattle.td_base.specs.declared.datagram.TheConstants.{DATAGRAM_MAX};
ghost use Rattle.history.specs.Full.{Full};
ghost use Rattle.legal.specs.Lab.{Draws};
ghost use Rattle.legal.specs.Past.{at_nat, arms};
ghost use Rattle.legal.specs.Next.{numbered, plain, hands_in, next_of};
ghost use Rattle.world.specs.World.{StandsFor, lab_in};
ghost use Rattle.world.specs.Record.{fresh_record};
ghost use Rattle.world.specs.Playing.{Plays, played};

use crate::prompt::Prompt;
use crate::world::World;
use events::{Target, Verb};
use history::{Act, Record, Stop};
use lab_nodes::{DATA_MAX, address_at, echo, target_address, write_data};

impl<'a> World<'a> {
    /// Lets the host of a node hand in a packet.
    pub(crate) fn hand(
        &mut self,
        verb: Verb,
        number: u16,
        bytes: &[u8],
        out: &mut Record,
    ) -> Result<(), Stop>
        requires fresh { out.old ≡ fresh_record out.old.event self.old.moment }
        requires within { number < length self.old.nodes }
        requires short { length bytes.now ≤ DATAGRAM_MAX }
        ensures plays { (d : Draws) (H : List Full) → StandsFor d self.old H → (e : Event)
            → at_nat (lab_in d self.old) e (plain verb) ≡ [] → arms e ≡ None
            → Plays d self.old self.new H (hands_in (lab_in d self.old) H
            (numbered out.old.event e) verb number bytes.now (node_at self.old.topology number))
            (played result out.new) }
        ensures rest { self.new
            ≡ record self.old { armed = self.new.armed; nodes = self.new.nodes; nats = self.new.nats; wire = self.new.wire; done = self.new.done } }
        ensures err { OnErr result ((self.new.wire ≡ self.old.wire) × (self.new.done ≡ self.old.done) × (self.new.armed ≡ self.old.armed)) }
    {
        self.act(Act::Plain { verb }, number, Prompt::Packet { bytes }, out)
    }

    /// Lets the host of a node send data.
    pub(crate) fn send_data(
        &mut self,
        number: u16,
        to: Target,
        body: &[u8],
        out: &mut Record,
    ) -> Result<(), Stop>
        requires fresh { out.old ≡ fresh_record out.old.event self.old.moment }
        requires within { number < length self.old.nodes }
        requires short { length body.now ≤ BODY_MAX }
        ensures plays { (d : Draws) (H : List Full) → StandsFor d self.old H
            → Plays d self.old self.new H (next_of (lab_in d self.old) H out.old.event (event.Host number to body.now)) (played result out.new) }
        ensures rest { self.new
            ≡ record self.old { armed = self.new.armed; nodes = self.new.nodes; nats = self.new.nats; wire = self.new.wire; done = self.new.done } }
        ensures err { OnErr result ((self.new.wire ≡ self.old.wire) × (self.new.done ≡ self.old.done) × (self.new.armed ≡ self.old.armed)) }
    {
        let nodes = self.nodes.as_slice();
        let src = address_at(nodes, number);
        let dst = target_address(nodes, to);
        let mut bytes = [0; DATA_MAX];
        let len = write_data(src, dst, body, &mut bytes);
        self.hand(Verb::Host, number, &bytes[..len], out)
    }

    /// Lets the host of a node send an echo request.
    pub(crate) fn send_echo(
        &mut self,
        number: u16,
        to: Target,
        seq: u16,
        out: &mut Record,
    ) -> Result<(), Stop>
        requires within { number < length self.old.nodes }
        requires fresh { out.old ≡ fresh_record out.old.event self.old.moment }
        ensures plays { (d : Draws) (H : List Full) → StandsFor d self.old H
            → Plays d self.old self.new H (next_of (lab_in d self.old) H out.old.event (event.Echo number to seq)) (played result out.new) }
        ensures rest { self.new
            ≡ record self.old { armed = self.new.armed; nodes = self.new.nodes; nats = self.new.nats; wire = self.new.wire; done = self.new.done } }
        ensures err { OnErr result ((self.new.wire ≡ self.old.wire) × (self.new.done ≡ self.old.done) × (self.new.armed ≡ self.old.armed)) }
    {
        let nodes = self.nodes.as_slice();
        let src = address_at(nodes, number);
        let dst = target_address(nodes, to);
        let bytes = echo(src, dst, seq);
        self.hand(Verb::Echo, number, &bytes, out)
    }
}
