//! The nodes of a scenario, and everything that they sent.
ghost use Rattle.std.specs.Prelude.{◌≡◌, ◌≤◌, ◌+◌, List, [], false, length, None, Some, Ok, Err, slice_get, option_map, IfSome, IfOk, IfErr, OnErr};
ghost use Rattle.events.specs.declared.event.Event.TheVariants as event;
ghost use Rattle.events.specs.declared.event.TheConstants.{ADVANCE_MAX_MS};
ghost use Rattle.td_base.specs.declared.datagram.TheConstants.{DATAGRAM_MAX};
ghost use Rattle.events.specs.Events.{IsEvent};
ghost use Rattle.td_chain.specs.Chains.{ChainsStandFor};
ghost use Rattle.history.specs.Full.{Full, bytes_of};
ghost use Rattle.legal.specs.Lab.{Draws, draws};
ghost use Rattle.legal.specs.Laws.{may_go_on};
ghost use Rattle.legal.specs.Next.{next_of};
ghost use Rattle.world.specs.declared.wire.TheConstants.{ENTRIES_MAX};
ghost use Rattle.world.specs.WireEntry.{item_lent};
ghost use Rattle.world.specs.World.{StandsFor, IsAgain, EndsInTime, Steps, StopsFor, StopsAs, lab_in};
ghost use Rattle.world.specs.Halted.{StopsAt};
ghost use Rattle.world.specs.Record.{fresh_record};
ghost use Rattle.world.specs.Playing.{Plays, PlaysTurn, Turned, played, turn_from};

use crate::going::Going;
use crate::guesses::Guesses;
use crate::record::{begin, blank, say};
use crate::wire::{ENTRIES_MAX, Wire};
use crate::wire_entry::WireEntry;
use events::{Event, Verb};
use history::{Act, Record, Stop, Turn};
use lab_nodes::{Nodes, PacketRoom};
use std::alloc::Global;
use std::marker::Model;
use td_base::{DATAGRAM_MAX, Millis, NoMemory};
use td_chain::Chains;
use teredo_node::{Fate, Step};
use topology::Topology;

/// The nodes of a scenario, and everything that they sent.
#[derive(Drop)]
pub struct World<'a> {
    pub(crate) topology: &'a Topology,
    // what is kept of the NATs, of which some may be behind others
    pub(crate) nats: Chains<'a>,
    pub(crate) nodes: Nodes,
    pub(crate) wire: Wire,
    pub(crate) moment: Millis,
    pub(crate) going: Option<Going>,
    // the number of the send that fails in the next record with sends
    pub(crate) armed: Option<u8>,
    pub(crate) stopped: Option<Stop>,
    // where entries went lately, so that a search needn't begin with the first node
    pub(crate) guesses: Guesses,
    // what the node does that is being asked, and where the packet stands that it sends
    pub(crate) step: Step,
    pub(crate) room: PacketRoom,
}

// No clause sees a field that nothing reads, such as a list of records: so it is its parts, and no byte more.
const _: () = prove_eq!(
    size_of::<World<'static>>(),
    size_of::<
        (
            &'static Topology,
            Chains<'static>,
            Nodes,
            Wire,
            Millis,
            Option<Going>,
            Option<u8>,
            Option<Stop>,
            Guesses,
            Step,
            PacketRoom
        )
    >()
);

impl<'a> Model for World<'a> {
    ghost use Rattle.world.specs.World.{WorldState, state_of};
    ghost use Rattle.world.specs.Playing.{IsWorld};

    ghost Value = { WorldState };

    ghost view = { λ w. state_of w.topology.now w.nats w.moment.0 w.going w.armed w.nodes w.wire w.stopped };

    ghost invariant = { λ w. IsWorld w.topology.now w.nats w.moment.0 w.going w.nodes };
}

impl<'a> World<'a> {
    /// The nodes at moment 0, with nothing on the wire. The NATs are those of the topology, and say which of them are behind
    /// others; nothing happened to them yet. The seed is that of the nodes' random words.
    pub fn new(
        alloc: Global,
        topology: &'a Topology,
        nats: Chains<'a>,
        seed: u64,
    ) -> Result<World<'a>, NoMemory>
        requires same { nats.topology ≡ topology.now }
        requires first { (ChainsStandFor nats (λ k. [])) × (nats.moment ≡ 0) }
        /// A new world has the topology, its NATs are behind others as the given ones are, and it stands for the empty
        /// history under the words of its seed. It is stated in `World.antt`, with what is kept of each kind of node in
        /// `lab_nodes/PlayedNode.antt`, and of NATs in `td_chain/Chains.antt`.
        /// Needs: NATs of the topology to which nothing happened yet (`Chains::new`, `Chains::alone`); memory.
        ensures topology { IfOk result (λ w. w.topology ≡ topology.now) }
        /// See `topology`.
        ensures chain { IfOk result (λ w. w.chain ≡ nats.entry.chain) }
        /// See `topology`.
        ensures stands { IfOk result (λ w. StandsFor (draws seed) w []) }
        /// See `topology`.
        ensures goes_on { IfOk result (λ w. w.stopped ≡ None) }
    {
        World::in_room(Vec::new(alloc), topology, nats, seed)
    }

    /// The same in memory that is there: that of `room`, whose bytes are dropped, is the wire's, and what is wanted besides
    /// is taken where that was.
    pub fn in_room(
        room: Vec<u8>,
        topology: &'a Topology,
        nats: Chains<'a>,
        seed: u64,
    ) -> Result<World<'a>, NoMemory>
        requires same { nats.topology ≡ topology.now }
        requires first { (ChainsStandFor nats (λ k. [])) × (nats.moment ≡ 0) }
        /// See `World::new`: `topology`.
        ensures topology { IfOk result (λ w. w.topology ≡ topology.now) }
        /// See `World::new`: `topology`.
        ensures chain { IfOk result (λ w. w.chain ≡ nats.entry.chain) }
        /// See `World::new`: `topology`.
        ensures stands { IfOk result (λ w. StandsFor (draws seed) w []) }
        /// See `World::new`: `topology`.
        ensures goes_on { IfOk result (λ w. w.stopped ≡ None) }
    {
        // for the proof: its rules
        let _rules = topology.clients();
        let nodes = Nodes::new(*room.allocator(), topology, seed)?;
        let wire = Wire::in_room(room)?;
        Ok(World {
            topology,
            nats,
            nodes,
            wire,
            moment: Millis(0),
            going: None,
            armed: None,
            stopped: None,
            guesses: Guesses::new(),
            step: Step::new(),
            room: [0; DATAGRAM_MAX],
        })
    }

    /// How many entries the wire has.
    pub fn entries(&self) -> u32
        /// The wire lends each entry; none has more than 1,400 bytes.
        ensures count { result ≡ length self.now.wire }
        /// See `World::step`: `cause`.
        ensures most { result ≤ ENTRIES_MAX }
    {
        self.wire.len() as u32
    }

    /// The entry of a number, if there is one.
    pub fn entry(&self, number: u32) -> Option<WireEntry<'_>>
        /// See `World::entries`: `count`.
        ensures lent { option_map item_lent result ≡ slice_get self.now.wire number }
        /// See `World::entries`: `count`.
        ensures short { IfSome result (λ entry. length (bytes_of (item_lent entry)) ≤ DATAGRAM_MAX) }
    {
        self.wire.get(number as usize)
    }

    /// Makes the send of a number fail, in the next record that has sends.
    fn arm(&mut self, send: u8, out: &mut Record)
        requires fresh { out.old ≡ fresh_record out.old.event self.old.moment }
        ensures plays { (d : Draws) (H : List Full) → StandsFor d self.old H
            → Plays d self.old self.new H (next_of (lab_in d self.old) H out.old.event (event.Fault send)) (Ok out.new) }
        ensures rest { self.new ≡ record self.old { armed = Some send } }
    {
        self.armed = Some(send);
        let act = Act::Plain { verb: Verb::Fault };
        say(out, act, None, Fate::Done);
    }

    /// Plays the one record of an event that has no further ones into `out`.
    fn play_once(&mut self, event: &Event, out: &mut Record) -> Result<(), Stop>
        requires fresh { out.old ≡ fresh_record out.old.event self.old.moment }
        requires event { IsEvent self.old.topology event.now }
        requires once { may_go_on event.now ≡ false }
        ensures plays { (d : Draws) (H : List Full) → StandsFor d self.old H
            → Plays d self.old self.new H (next_of (lab_in d self.old) H out.old.event event.now) (played result out.new) }
        ensures rest { self.new
            ≡ record self.old { armed = self.new.armed; nodes = self.new.nodes; nats = self.new.nats; wire = self.new.wire; done = self.new.done } }
        ensures err { OnErr result ((self.new.wire ≡ self.old.wire) × (self.new.done ≡ self.old.done) × (self.new.armed ≡ self.old.armed)) }
    {
        let _ = &self.nodes;
        match event {
            Event::Advance { .. } => unreachable!(),
            Event::Settle => unreachable!(),
            Event::Deliver { number } => self.deliver(*number, out),
            Event::Next => self.deliver_next(out),
            Event::Host { node, to, body } => self.send_data(*node, *to, body.as_slice(), out),
            Event::Echo { node, to, seq } => self.send_echo(*node, *to, *seq, out),
            Event::Raw { node, bytes } => self.hand(Verb::Raw, *node, bytes.as_slice(), out),
            Event::Stranger { src, dst, bytes } => self.put_strange(
                *src,
                *dst,
                bytes.as_slice(),
                out,
            ),
            Event::Copy { number, src, dst } => self.copy(*number, *src, *dst, out),
            Event::Restart { node } => {
                self.restart(*node, out);
                Ok(())
            }
            Event::Forget { nat, client } => {
                self.forget(*nat, *client, out);
                Ok(())
            }
            Event::Fault { send } => {
                self.arm(*send, out);
                Ok(())
            }
        }
    }

    /// Plays the next record of an event into `out`, and answers whether the event has further ones.
    fn play(&mut self, event: &Event, out: &mut Record) -> Result<bool, Stop>
        requires fresh { out.old ≡ fresh_record out.old.event self.old.moment }
        requires event { IsEvent self.old.topology event.now }
        requires again { IsAgain self.old.going event.now }
        requires time { EndsInTime self.old.began event.now }
        ensures plays { (d : Draws) (H : List Full) → StandsFor d self.old H
            → PlaysTurn d self.old self.new H (next_of (lab_in d self.old) H out.old.event event.now) (turn_from result out.new) }
        ensures turned { IfOk (turn_from result out.new) (λ turn. Turned self.old self.new event.now turn) }
        ensures time { self.new.moment ≤ self.old.began + ADVANCE_MAX_MS }
        ensures err { OnErr result ((self.new.topology ≡ self.old.topology) × (self.new.chain ≡ self.old.chain)
            × (self.new.wire ≡ self.old.wire) × (self.new.done ≡ self.old.done) × (self.new.armed ≡ self.old.armed)) }
    {
        legal::of_its_event();
        let _ = &self.nodes;
        match event {
            Event::Advance { ms } => self.advance(*ms, out),
            Event::Settle => self.settle(out),
            _ => {
                self.play_once(event, out)?;
                Ok(false)
            }
        }
    }

    /// Plays the next record of event number `index` into `out`, in place of what it held, and answers whether the event
    /// has further ones. At a `Stop` a record stands there that doesn't say what was done, and every later call answers
    /// the same. A record has some 400 bytes, so that to answer it takes longer than to make it.
    pub fn step_into(&mut self, index: u32, event: &Event, out: &mut Record) -> Result<bool, Stop>
        requires event { IsEvent self.old.topology event.now }
        requires again { self.old.stopped ≡ None → IsAgain self.old.going event.now }
        requires time { self.old.stopped ≡ None → EndsInTime self.old.began event.now }
        /// The step that puts the record in place of another one, and answers whether the event has further ones, does
        /// the same. It is as `World::step`, which calls it. At a stop a record stands there that has the number of the
        /// event and the world's moment, and doesn't say what was done; at each later call that stays too. and what is
        /// refused of `World::step`.
        /// Needs: as that.
        ensures ok { IfOk (turn_from result out.new) (λ turn. Steps self.old self.new index event.now turn) }
        /// See `ok`.
        ensures for_good { IfSome self.old.stopped (λ stop. (result ≡ Err stop) × (self.new ≡ self.old)) }
        /// See `ok`.
        ensures untouched { IfSome self.old.stopped (λ _. out.new ≡ out.old) }
        /// See `ok`.
        ensures cause { self.old.stopped ≡ None → IfErr result (λ stop. StopsFor self.old index event.now stop) }
        /// See `ok`.
        ensures left { self.old.stopped ≡ None → OnErr result (StopsAt self.old self.new index event.now) }
        /// See `ok`.
        ensures blank { self.old.stopped ≡ None → OnErr result (out.new ≡ fresh_record index self.new.moment) }
        /// See `ok`.
        ensures err { IfErr result (λ stop. StopsAs self.old self.new stop) }
    {
        if let Some(stop) = self.stopped {
            return Err(stop);
        }
        prove!(self.wire.len() <= ENTRIES_MAX);
        begin(out, index, self.moment);
        match self.play(event, out) {
            Ok(more) => {
                prove!(self.wire.len() <= ENTRIES_MAX);
                Ok(more)
            }
            Err(stop) => {
                self.stopped = Some(stop);
                begin(out, index, self.moment);
                Err(stop)
            }
        }
    }

    /// Plays the next record of event number `index`. After a `Stop` every later call answers the same.
    pub fn step(&mut self, index: u32, event: &Event) -> Result<Turn, Stop>
        requires event { IsEvent self.old.topology event.now }
        requires again { self.old.stopped ≡ None → IsAgain self.old.going event.now }
        requires time { self.old.stopped ≡ None → EndsInTime self.old.began event.now }
        /// - For every history that the world stands for, whichever NATs are behind others, `step` gives the record
        ///   that follows, and the world then stands for the history with it. It is stated in `World.antt`, with what
        ///   follows in `legal/Next.antt`, `legal/Emit.antt` and `legal/Past.antt`.
        ///   Needs: the event is one that the nodes can be asked for; of a world that isn't stopped, an event that goes
        ///   on comes again and an advance ends below 2^48; memory.
        ///   Leaves open: that anything is ever delivered: the events say what is.
        /// - See `cause`.
        /// - See `Steps`: `falls`.
        ensures ok { IfOk result (λ turn. Steps self.old self.new index event.now turn) }
        /// After a stop each step answers it for good, and the world stays. This holds for any event that the nodes can
        /// be asked for.
        ensures for_good { IfSome self.old.stopped (λ stop. (result ≡ Err stop) × (self.new ≡ self.old)) }
        /// `step` stops only where the record that follows would make entry 65,537, or where it may take memory. It
        /// answers `WireFull` exactly there: after a record the wire has at most 65,536 entries. `NoMemory`: the record
        /// has a mark, or its fate is `queued`, `rule3`, `rule3_bubble` or `held`.
        ensures cause { self.old.stopped ≡ None → IfErr result (λ stop. StopsFor self.old index event.now stop) }
        /// A world that stops stands for its history still, but for the time, where memory was wanting for its node or
        /// for a datagram from nowhere. Else its node had acted, and what that sends had no place: the nodes stand for
        /// the history with the record, and the NATs know a part of what it lets out. This holds for every history that
        /// the world stood for. No node is taken back: to keep each as it was would take a copy of it at each record.
        /// It is stated in `Halted.antt`, with `AreNatsAmid` of `Emission.antt`.
        ensures left { self.old.stopped ≡ None → OnErr result (StopsAt self.old self.new index event.now) }
        /// At a stop the topology, which NATs are behind others, the wire, what was delivered and what is armed stay,
        /// and the stop is kept.
        /// Leaves open: time, which may have passed up to the record that stopped.
        ensures err { IfErr result (λ stop. StopsAs self.old self.new stop) }
    {
        let mut said = blank(index, Millis(0));
        let more = self.step_into(index, event, &mut said)?;
        Ok(turn_with(more, said))
    }
}

/// The turn of a record.
fn turn_with(more: bool, said: Record) -> Turn
    ensures { turn_from (Ok more) said ≡ Ok result }
{
    if more {
        Turn::More(said)
    } else {
        Turn::Last(said)
    }
}
