//! Nodes start anew, and NATs forget.
ghost use Rattle.std.specs.Prelude.{◌≡◌, ◌<◌, List, length, Ok};
ghost use Rattle.events.specs.declared.event.Event.TheVariants as event;
ghost use Rattle.events.specs.Events.{IsForgotten};
ghost use Rattle.history.specs.Full.{Full};
ghost use Rattle.legal.specs.Lab.{Draws};
ghost use Rattle.legal.specs.Next.{next_of};
ghost use Rattle.world.specs.World.{StandsFor, lab_in};
ghost use Rattle.world.specs.Record.{fresh_record};
ghost use Rattle.world.specs.Playing.{Plays};

use crate::record::say;
use crate::world::World;
use events::Verb;
use history::{Act, Record};
use teredo_node::Fate;
use topology::Node;

impl<'a> World<'a> {
    /// Lets a node start anew.
    pub(crate) fn restart(&mut self, number: u16, out: &mut Record)
        requires within { number < length self.old.nodes }
        requires fresh { out.old ≡ fresh_record out.old.event self.old.moment }
        ensures plays { (d : Draws) (H : List Full) → StandsFor d self.old H
            → Plays d self.old self.new H (next_of (lab_in d self.old) H out.old.event (event.Restart number)) (Ok out.new) }
        ensures rest { self.new ≡ record self.old { nodes = self.new.nodes; nats = self.new.nats } }
    {
        self.nodes.restart_at(number, self.moment);
        self.nats.restart(number);
        let act = Act::Plain {
            verb: Verb::Restart,
        };
        say(out, act, Some(number), Fate::Done);
    }

    /// Lets a NAT forget a client behind it.
    pub(crate) fn forget(&mut self, number: u16, who: u16, out: &mut Record)
        requires fresh { out.old ≡ fresh_record out.old.event self.old.moment }
        requires event { IsForgotten self.old.topology number who }
        ensures plays { (d : Draws) (H : List Full) → StandsFor d self.old H
            → Plays d self.old self.new H (next_of (lab_in d self.old) H out.old.event (event.Forget number who)) (Ok out.new) }
        ensures rest { self.new ≡ record self.old { nats = self.new.nats } }
    {
        let Some(Node::Client(row)) = self.topology.node(usize::from(who)) else {
            unreachable!()
        };
        self.nats.forget(number, row.inside);
        let act = Act::Plain { verb: Verb::Forget };
        say(out, act, Some(number), Fate::Done);
    }
}
