//! What hears the records of a scenario while it is played.
ghost use Rattle.std.specs.Prelude.{◌≡◌, ◌++◌, [], ◌∷◌, List, ℕ, OnOk};
ghost use Rattle.topology.specs.Rows.{TopologyState};
ghost use Rattle.history.specs.Full.{Full};
ghost use Rattle.legal.specs.Lab.{Draws};
ghost use Rattle.world.specs.World.{StandsFor, lab_in};
ghost use Rattle.sink_lines.specs.Lines.{Writing};
ghost use Rattle.player.specs.Account.{Account};
ghost use Rattle.player.specs.Hearing.{IsNews, CanHear, IsHeard};

use crate::hear_fault::HearFault;
use events::Event;
use history::Record;
use td_outside::{Failed, Sink};
use world::World;

/// What hears each record of a scenario, as soon as it is made, and writes of it. Its meaning is what it writes of a
/// history; what it keeps besides is its own.
pub trait Listener {
    /// What it writes of a history.
    ghost account: { Account };

    /// What it writes of a record, by the nodes and the records before it.
    ghost news: { TopologyState → List Full → Full → List (List ℕ) };

    /// What it keeps is that of these records of a topology's nodes.
    ghost keeps: { Self → TopologyState → List Full → Type 0 };

    /// Writes what stands before the first record.
    fn begin<K: Sink>(&self, out: &mut K) -> Result<(), Failed>
        /// At the end it writes what it says that it does of the whole history, and is shown the world, which stands
        /// for this.
        ensures { (t : TopologyState) → keeps self.now t []
            → Writing (K.state out.old) (K.state out.new) (account.lines t []) result };

    /// Hears the record that an event made last. Its entries are on the wire, and the world is as it left it.
    fn hear<K: Sink>(
        &mut self,
        world: &World,
        event: &Event,
        said: &Record,
        out: &mut K,
    ) -> Result<(), HearFault>
        requires { CanHear (keeps self.old) world.now event.now said.now }
        /// See `written`.
        ensures kept { (t : TopologyState) (H : List Full) (r : Full) → keeps self.old t H → IsNews t world.now event.now said.now H r
            → OnOk result (keeps self.new t (r ∷ H)) }
        /// A listener writes of a record what it says that it does, and knows of the records so far what it says. The world
        /// that it hears of it stands for them. Where it may want memory for the record, it may answer that there is none:
        /// it has written nothing of the record then.
        ensures written { (t : TopologyState) (H : List Full) (r : Full) → keeps self.old t H → IsNews t world.now event.now said.now H r
            → IsHeard (account.wants r) (K.state out.old) (K.state out.new) (news t H r) result };

    /// Writes what stands behind the last record. The world is as that record left it.
    fn end<K: Sink>(&mut self, world: &World, out: &mut K) -> Result<(), Failed>
        /// See `Listener::begin`.
        ensures { (d : Draws) (H : List Full) → keeps self.old world.now.topology H → StandsFor d world.now H
            → Writing (K.state out.old) (K.state out.new) (account.last (lab_in d world.now) H) result };

    /// Writes what stands in place of a record that would make too long a wire.
    fn break_off<K: Sink>(&self, out: &mut K) -> Result<(), Failed>
        /// See `Listener::begin`.
        ensures { Writing (K.state out.old) (K.state out.new) account.full result };

    /// What it writes of a record comes behind what it wrote of those before it.
    ghost grows: { (t : TopologyState) (H : List Full) (r : Full) → account.lines t (r ∷ H) ≡ account.lines t H ++ news t H r };
}
