//! Entries of the wire are delivered.
ghost use Rattle.std.specs.Prelude.{◌≡◌, ◌≤◌, ◌+◌, List, [], None, IfOk, OnErr};
ghost use Rattle.events.specs.declared.event.Event.{Event};
ghost use Rattle.events.specs.declared.event.Event.TheVariants as event;
ghost use Rattle.history.specs.Full.{Full};
ghost use Rattle.events.specs.declared.event.TheConstants.{ADVANCE_MAX_MS};
ghost use Rattle.legal.specs.Lab.{Draws};
ghost use Rattle.legal.specs.Past.{forgotten, arms};
ghost use Rattle.legal.specs.Next.{numbered, delivers, next_of};
ghost use Rattle.world.specs.World.{StandsFor, IsAgain, lab_in};
ghost use Rattle.world.specs.Record.{fresh_record};
ghost use Rattle.world.specs.Playing.{Plays, PlaysTurn, Turned, played, turn_from};

use crate::going::Going;
use crate::lookup::Lookup;
use crate::prompt::Prompt;
use crate::record::say;
use crate::route::Route;
use crate::world::World;
use events::Verb;
use history::{Act, Record, Stop};
use teredo_node::Fate;

impl<'a> World<'a> {
    /// Delivers entry `number` to whoever is at its destination.
    pub(crate) fn deliver(&mut self, number: u32, out: &mut Record) -> Result<(), Stop>
        requires fresh { out.old ≡ fresh_record out.old.event self.old.moment }
        ensures plays { (d : Draws) (H : List Full) → StandsFor d self.old H → (e : Event) → forgotten (lab_in d self.old) e ≡ [] → arms e ≡ None
            → Plays d self.old self.new H (delivers (lab_in d self.old) H (numbered out.old.event e) number) (played result out.new) }
        ensures rest { self.new
            ≡ record self.old { armed = self.new.armed; nodes = self.new.nodes; nats = self.new.nats; wire = self.new.wire; done = self.new.done } }
        ensures err { OnErr result ((self.new.wire ≡ self.old.wire) × (self.new.done ≡ self.old.done) × (self.new.armed ≡ self.old.armed)) }
    {
        let act = Act::Deliver { number };
        let place = number as usize;
        let Some(entry) = self.wire.get(place) else {
            say(out, act, None, Fate::NoEntry);
            return Ok(());
        };
        let lookup = Lookup {
            topology: self.topology,
            nats: &self.nats,
            now: self.moment,
        };
        match lookup.route_of(&mut self.guesses, entry) {
            Route::Astray => {
                self.wire.set_delivered(place);
                say(out, act, None, Fate::Nowhere);
                Ok(())
            }
            Route::Closed { nat } => {
                self.wire.set_delivered(place);
                say(out, act, Some(nat), Fate::NatClosed);
                Ok(())
            }
            Route::Reaches { node } => self.act(act, node, Prompt::Entry { number }, out),
        }
    }

    /// Delivers the least-numbered entry that was never delivered.
    pub(crate) fn deliver_next(&mut self, out: &mut Record) -> Result<(), Stop>
        requires fresh { out.old ≡ fresh_record out.old.event self.old.moment }
        ensures plays { (d : Draws) (H : List Full) → StandsFor d self.old H
            → Plays d self.old self.new H (next_of (lab_in d self.old) H out.old.event event.Next) (played result out.new) }
        ensures rest { self.new
            ≡ record self.old { armed = self.new.armed; nodes = self.new.nodes; nats = self.new.nats; wire = self.new.wire; done = self.new.done } }
        ensures err { OnErr result ((self.new.wire ≡ self.old.wire) × (self.new.done ≡ self.old.done) × (self.new.armed ≡ self.old.armed)) }
    {
        match self.wire.first_undelivered() {
            Some(number) => self.deliver(number as u32, out),
            None => {
                let act = Act::Plain { verb: Verb::Next };
                say(out, act, None, Fate::NoEntry);
                Ok(())
            }
        }
    }

    /// Delivers the least-numbered entry that was never delivered, and answers whether there was one.
    pub(crate) fn settle(&mut self, out: &mut Record) -> Result<bool, Stop>
        requires fresh { out.old ≡ fresh_record out.old.event self.old.moment }
        requires again { IsAgain self.old.going event.Settle }
        ensures plays { (d : Draws) (H : List Full) → StandsFor d self.old H
            → PlaysTurn d self.old self.new H (next_of (lab_in d self.old) H out.old.event event.Settle) (turn_from result out.new) }
        ensures turned { IfOk (turn_from result out.new) (λ turn. Turned self.old self.new event.Settle turn) }
        ensures time { self.new.moment ≤ self.old.began + ADVANCE_MAX_MS }
        ensures err { OnErr result ((self.new.topology ≡ self.old.topology) × (self.new.chain ≡ self.old.chain)
            × (self.new.wire ≡ self.old.wire) × (self.new.done ≡ self.old.done) × (self.new.armed ≡ self.old.armed)) }
    {
        let Some(number) = self.wire.first_undelivered() else {
            self.going = None;
            let act = Act::Plain { verb: Verb::Settle };
            say(out, act, None, Fate::Done);
            return Ok(false);
        };
        self.deliver(number as u32, out)?;
        self.going = Some(Going::Settle);
        Ok(true)
    }
}
