//! Time passes.
ghost use Rattle.std.specs.Prelude.{◌≡◌, ◌<◌, ◌≤◌, ◌+◌, max, List, [], length, None, Some, IfSome, IfNone, IfOk, OnErr};
ghost use Rattle.teredo_node.specs.declared.fate.Fate.TheVariants as fates;
ghost use Rattle.topology.specs.Topology.{node_at, nodes};
ghost use Rattle.events.specs.declared.event.Event.{Event};
ghost use Rattle.events.specs.declared.event.Event.TheVariants as event;
ghost use Rattle.events.specs.declared.event.TheConstants.{ADVANCE_MAX_MS};
ghost use Rattle.events.specs.declared.verb.Verb.TheVariants as verb;
ghost use Rattle.history.specs.Full.{Full};
ghost use Rattle.legal.specs.Lab.{Draws};
ghost use Rattle.legal.specs.Past.{forgotten, arms};
ghost use Rattle.legal.specs.Next.{numbered, plain, least_due, next_of};
ghost use Rattle.td_base.specs.declared.millis.TheConstants.{CLOCK_END_MS};
ghost use Rattle.legal.specs.Next.{DueNode as Tick};
ghost use Rattle.lab_nodes.specs.Due.{due_as, NoneIsDue};
ghost use Rattle.world.specs.Record.{fresh_record, with_deed};
ghost use Rattle.world.specs.World.{StandsFor, IsAgain, lab_in};
ghost use Rattle.world.specs.Playing.{ticks_at, IsFound, Plays, PlaysTurn, Turned, played, turn_from};

use crate::going::Going;
use crate::prompt::Prompt;
use crate::record::say;
use crate::world::World;
use events::Verb;
use history::{Act, Record, Stop};
use lab_nodes::Due;
use td_base::Millis;
use teredo_node::Fate;

impl<'a> World<'a> {
    /// When the event of the next record began.
    fn began(&self) -> Millis
        ensures { result.0 ≡ self.now.began }
    {
        match self.going {
            Some(Going::Advance { began, .. }) => began,
            Some(Going::Settle) => self.moment,
            None => self.moment,
        }
    }

    /// The tick that is due first, up to a moment.
    fn due_by(&mut self, end: Millis) -> Option<Due>
        ensures due { (d : Draws) (H : List Full) → StandsFor d self.old H → IfSome result (λ x. IsFound (lab_in d self.old) H x) }
        ensures none { (d : Draws) (H : List Full) → StandsFor d self.old H
            → IfNone result (NoneIsDue end.0 (least_due (lab_in d self.old) H 0 (nodes self.old.topology))) }
        ensures early { IfSome result (λ x. x.moment.0 ≤ end.0) }
        ensures within { IfSome result (λ x. x.node < length self.old.nodes) }
        ensures same { self.new ≡ self.old }
    {
        self.nodes.first_due_by(self.topology, self.moment, end)
    }

    /// Lets time pass up to the end of an advance.
    fn pass(&mut self, end: Millis, out: &mut Record)
        requires fresh { out.old ≡ fresh_record out.old.event self.old.moment }
        requires later { self.old.moment ≤ end.0 }
        requires early { end.0 < CLOCK_END_MS }
        ensures record_is { out.new ≡ with_deed (fresh_record out.old.event end.0) (plain verb.Advance) None fates.Done }
        ensures rest { self.new ≡ record self.old { moment = end.0; began = end.0; going = None } }
    {
        self.moment = end;
        self.going = None;
        out.moment = end;
        let act = Act::Plain {
            verb: Verb::Advance,
        };
        say(out, act, None, Fate::Done);
    }

    /// Lets the tick of a node be played that is due, of an advance by `ms` that began at this moment.
    fn tick(&mut self, began: Millis, ms: u64, due: Due, out: &mut Record) -> Result<(), Stop>
        requires fresh { out.old ≡ fresh_record out.old.event self.old.moment }
        requires early { due.moment.0 ≤ began.0 + ms }
        requires within { due.node < length self.old.nodes }
        requires going { (self.old.moment ≤ began.0 + ms) × (began.0 + ms < CLOCK_END_MS) }
        ensures plays { (d : Draws) (H : List Full) → StandsFor d self.old H → (e : Event) → forgotten (lab_in d self.old) e ≡ [] → arms e ≡ None
            → (x : Tick) → due_as x ≡ due → node_at self.old.topology x.number ≡ Some x.node
            → Plays d self.old self.new H (ticks_at d self.old H (numbered out.old.event e) x) (played result out.new) }
        ensures rest { self.new ≡ record self.old {
          moment = self.new.moment;
          began = began.0;
          going = Some (event.Advance ms);
          armed = self.new.armed;
          nodes = self.new.nodes;
          nats = self.new.nats;
          wire = self.new.wire;
          done = self.new.done;
        } }
        ensures moment { self.new.moment ≤ began.0 + ms }
        ensures err { OnErr result ((self.new.wire ≡ self.old.wire) × (self.new.done ≡ self.old.done) × (self.new.armed ≡ self.old.armed)) }
    {
        let now = later(self.moment, due.moment);
        self.moment = now;
        self.going = Some(Going::Advance { began, ms });
        out.moment = now;
        self.act(Act::Tick, due.node, Prompt::Tick, out)
    }

    /// Lets time pass up to the next tick that is due, else to the end of the advance, and answers whether the advance
    /// goes on.
    pub(crate) fn advance(&mut self, ms: u64, out: &mut Record) -> Result<bool, Stop>
        requires fresh { out.old ≡ fresh_record out.old.event self.old.moment }
        requires event { ms ≤ ADVANCE_MAX_MS }
        requires again { IsAgain self.old.going (event.Advance ms) }
        requires time { self.old.began + ms < CLOCK_END_MS }
        ensures plays { (d : Draws) (H : List Full) → StandsFor d self.old H
            → PlaysTurn d self.old self.new H (next_of (lab_in d self.old) H out.old.event (event.Advance ms)) (turn_from result out.new) }
        ensures turned { IfOk (turn_from result out.new) (λ turn. Turned self.old self.new (event.Advance ms) turn) }
        ensures time { self.new.moment ≤ self.old.began + ms }
        ensures err { OnErr result ((self.new.topology ≡ self.old.topology) × (self.new.chain ≡ self.old.chain)
            × (self.new.wire ≡ self.old.wire) × (self.new.done ≡ self.old.done) × (self.new.armed ≡ self.old.armed)) }
    {
        let _ = &self.nodes;
        let began = self.began();
        let end = Millis(began.0 + ms);
        let Some(due) = self.due_by(end) else {
            self.pass(end, out);
            return Ok(false);
        };
        self.tick(began, ms, due, out)?;
        Ok(true)
    }
}

/// The later of two moments.
fn later(a: Millis, b: Millis) -> Millis
    ensures { result.0 ≡ max b.0 a.0 }
{
    if a.0 < b.0 { b } else { a }
}
