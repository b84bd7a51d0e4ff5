//! A node acts: it is asked, and what it sends comes onto the wire.
ghost use Rattle.std.specs.Prelude.{◌≡◌, ◌<◌, List, [], length, Some, OnErr};
ghost use Rattle.topology.specs.declared.node.Node.{Node};
ghost use Rattle.topology.specs.Topology.{node_at};
ghost use Rattle.events.specs.declared.event.Event.{Event};
ghost use Rattle.history.specs.Full.{Full};
ghost use Rattle.legal.specs.Lab.{Draws};
ghost use Rattle.legal.specs.Past.{at_nat, arms};
ghost use Rattle.legal.specs.Next.{numbered};
ghost use Rattle.world.specs.Prompt.{IsPrompt};
ghost use Rattle.world.specs.Record.{fresh_record};
ghost use Rattle.world.specs.World.{lab_in};
ghost use Rattle.world.specs.Playing.{prompted, Finds, Plays, played};

use crate::prompt::{Prompt, input_of, remember};
use crate::record::say_step;
use crate::sender::{Sender, emit, still_armed};
use crate::world::World;
use history::{Act, Record, Stop};
use lab_nodes::{Asked, Call};

impl<'a> World<'a> {
    /// Lets a node, by its number, do what it is prompted to now, and puts what it sends on the wire.
    pub(crate) fn act(
        &mut self,
        act: Act,
        number: u16,
        prompt: Prompt<'_>,
        out: &mut Record,
    ) -> Result<(), Stop>
        requires fresh { out.old ≡ fresh_record out.old.event self.old.moment }
        requires within { number < length self.old.nodes }
        requires prompt { IsPrompt self.old.wire self.old.done prompt }
        ensures plays { (d : Draws) (H : List Full) → Finds d self.old H → (e : Event) → at_nat (lab_in d self.old) e act ≡ [] → arms e ≡ None
            → (node : Node) → node_at self.old.topology number ≡ Some node
            → Plays d self.old self.new H (prompted d self.old H (numbered out.old.event e) act prompt.entry number node) (played result out.new) }
        ensures rest { self.new
            ≡ record self.old { armed = self.new.armed; nodes = self.new.nodes; nats = self.new.nats; wire = self.new.wire; done = self.new.done } }
        ensures err { OnErr result ((self.new.wire ≡ self.old.wire) × (self.new.done ≡ self.old.done) × (self.new.armed ≡ self.old.armed)) }
    {
        let now = self.moment;
        let call = Call {
            node: number,
            now,
            input: input_of(&self.wire, prompt),
        };
        let Asked {
            outlet,
            packet,
            handed,
            address,
        } = self.nodes.ask(call, &mut self.step, &mut self.room)?;
        say_step(out, act, number, &self.step);
        let fails = self.armed;
        let sender = Sender { outlet, now, fails };
        let marks = &mut out.marks;
        let nats = &mut self.nats;
        emit(sender, nats, &mut self.wire, &self.step, packet, marks)?;
        let _rows = self.nats.topology();
        self.armed = still_armed(fails, &self.step);
        remember(&mut self.wire, prompt);
        out.handed = handed;
        out.address = address;
        Ok(())
    }
}
