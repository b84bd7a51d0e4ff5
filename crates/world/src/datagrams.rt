//! Datagrams come onto the wire from nowhere.
ghost use Rattle.std.specs.Prelude.{◌≡◌, ◌≤◌, List, length, None, OnErr};
ghost use Rattle.events.specs.declared.event.Event.{Event};
ghost use Rattle.events.specs.declared.event.Event.TheVariants as event;
ghost use Rattle.td_base.specs.declared.datagram.TheConstants.{DATAGRAM_MAX};
ghost use Rattle.history.specs.Full.{Full};
ghost use Rattle.legal.specs.Lab.{Draws};
ghost use Rattle.legal.specs.Past.{arms};
ghost use Rattle.legal.specs.Next.{numbered, puts, next_of};
ghost use Rattle.world.specs.World.{StandsFor, lab_in};
ghost use Rattle.world.specs.Record.{fresh_record};
ghost use Rattle.world.specs.Playing.{Plays, played};

use crate::record::say;
use crate::wire_entry::WireEntry;
use crate::world::World;
use events::Verb;
use history::{Act, Record, Stop};
use td_base::Ep;
use teredo_node::Fate;

impl<'a> World<'a> {
    /// Puts a datagram on the wire.
    fn put(
        &mut self,
        act: Act,
        src: Ep,
        dst: Ep,
        bytes: &[u8],
        out: &mut Record,
    ) -> Result<(), Stop>
        requires fresh { out.old ≡ fresh_record out.old.event self.old.moment }
        requires short { length bytes.now ≤ DATAGRAM_MAX }
        ensures plays { (d : Draws) (H : List Full) → StandsFor d self.old H → (e : Event) → arms e ≡ None
            → Plays d self.old self.new H (puts H (numbered out.old.event e) act src dst bytes.now) (played result out.new) }
        ensures rest { self.new ≡ record self.old { wire = self.new.wire; done = self.new.done } }
        ensures err { OnErr result ((self.new.wire ≡ self.old.wire) × (self.new.done ≡ self.old.done) × (self.new.armed ≡ self.old.armed)) }
    {
        say(out, act, None, Fate::Put);
        self.wire
            .put(WireEntry::Udp { src, dst, bytes }, &mut out.marks)
    }

    /// Puts a stranger's datagram on the wire.
    pub(crate) fn put_strange(
        &mut self,
        src: Ep,
        dst: Ep,
        bytes: &[u8],
        out: &mut Record,
    ) -> Result<(), Stop>
        requires fresh { out.old ≡ fresh_record out.old.event self.old.moment }
        requires short { length bytes.now ≤ DATAGRAM_MAX }
        ensures plays { (d : Draws) (H : List Full) → StandsFor d self.old H
            → Plays d self.old self.new H (next_of (lab_in d self.old) H out.old.event (event.Stranger src dst bytes.now)) (played result out.new) }
        ensures rest { self.new ≡ record self.old { wire = self.new.wire; done = self.new.done } }
        ensures err { OnErr result ((self.new.wire ≡ self.old.wire) × (self.new.done ≡ self.old.done) × (self.new.armed ≡ self.old.armed)) }
    {
        let act = Act::Plain {
            verb: Verb::Stranger,
        };
        self.put(act, src, dst, bytes, out)
    }

    /// Puts the bytes of entry `number` on the wire again, between other endpoints.
    pub(crate) fn copy(
        &mut self,
        number: u32,
        src: Ep,
        dst: Ep,
        out: &mut Record,
    ) -> Result<(), Stop>
        requires fresh { out.old ≡ fresh_record out.old.event self.old.moment }
        ensures plays { (d : Draws) (H : List Full) → StandsFor d self.old H
            → Plays d self.old self.new H (next_of (lab_in d self.old) H out.old.event (event.Copy number src dst)) (played result out.new) }
        ensures rest { self.new ≡ record self.old { wire = self.new.wire; done = self.new.done } }
        ensures err { OnErr result ((self.new.wire ≡ self.old.wire) × (self.new.done ≡ self.old.done) × (self.new.armed ≡ self.old.armed)) }
    {
        let act = Act::Copy { number };
        let Some(entry) = self.wire.get(number as usize) else {
            say(out, act, None, Fate::NoEntry);
            return Ok(());
        };
        let bytes = self.wire.copy_of(entry.bytes())?;
        self.put(act, src, dst, bytes.as_slice(), out)
    }
}
