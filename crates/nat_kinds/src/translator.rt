//! A network address translator.
ghost use Rattle.std.specs.Prelude.{◌≡◌, ℕ, ◌≤◌, [], ◌∷◌, List, Ok, IfOk, OnErr};
ghost use Rattle.nat_kinds.specs.History.{NatEntry, Out, Forget, Restart};
ghost use Rattle.nat_kinds.specs.Mappings.{live_port};
ghost use Rattle.nat_kinds.specs.Answer.{live_after, nat_answer, leaves_from, GivesAnswer};
ghost use Rattle.nat_kinds.specs.Entering.{lets_in};
ghost use Rattle.nat_kinds.specs.Nat.{NatStandsFor, StandsAsBefore};

use crate::asked::{self, Asked};
use crate::departure::Departure;
use crate::front::Front;
use crate::incoming::Incoming;
use crate::index::{self, Index};
use crate::kind::NatKind;
use crate::mappings;
use crate::outgoing::Outward;
use crate::refusal::NatRefusal;
use crate::settings::NatSettings;
use std::alloc::Global;
use std::collections::HashMap;
use std::marker::Model;
use td_base::{Ep, Ip4, Millis};

/// A network address translator with one external address.
#[derive(Drop)]
pub struct Nat {
    settings: NatSettings,
    moment: Millis,
    places: Vec<Option<Outward>>,
    index: Index,
    front: Front,
    asked: Asked,
    // when what was asked too long ago was looked for
    swept: Millis,
}

impl Model for Nat {
    ghost use Rattle.std.specs.Prelude.{◌≤◌};
    ghost use Rattle.nat_kinds.specs.Nat.{NatState};
    ghost use Rattle.nat_kinds.specs.Places.{IsIndexed};
    ghost use Rattle.nat_kinds.specs.Front.{IsFront};
    ghost use Rattle.nat_kinds.specs.Asked.{IsSwept};

    ghost Value = { NatState };

    ghost view = { λ a. record { settings = a.settings; moment = a.moment.0; places = a.places.items; asked = a.asked.entries } };

    ghost invariant = { λ a. IsIndexed a.settings.kind a.places.items a.index.entries
        × IsFront a.places.items a.front × (a.front.since.0 ≤ a.moment.0)
        × IsSwept a.settings.idle a.moment.0 a.swept.0 a.asked.entries };
}

impl Nat {
    /// A NAT without mappings. `idle` is how long a mapping lives after its latest outward datagram, in milliseconds.
    pub fn new(alloc: Global, kind: NatKind, external: Ip4, idle: u32) -> Nat
        /// A new NAT has the settings that it was given, and stands for the empty history.
        ensures settings { result.settings ≡ record { kind = kind; external = external; idle = idle } }
        /// See `settings`.
        ensures moment { result.moment ≡ 0 }
        /// See `settings`.
        ensures stands { NatStandsFor result [] }
    {
        Nat {
            settings: NatSettings {
                kind,
                external,
                idle,
            },
            moment: Millis(0),
            places: Vec::new(alloc),
            index: HashMap::new(alloc),
            front: Front::empty(Millis(0)),
            asked: HashMap::new(alloc),
            swept: Millis(0),
        }
    }

    /// The external endpoint that a datagram from `inside` to `dst` leaves from. It refreshes its mapping.
    pub fn outward(&mut self, now: Millis, inside: Ep, dst: Ep) -> Result<Ep, NatRefusal>
        requires clock { self.old.moment ≤ now.0 }

        /// For every history that it stands for, `outward` gives what the history gives: the port that the key holds,
        /// else the lowest free one, or the refusal. It then stands for the history with that datagram; where it
        /// refuses, for the same histories as before. All memory is taken before that; where it runs out, nothing
        /// changed. It is stated in `Answer.antt`, `Mappings.antt`, `History.antt`; what is kept in `Places.antt`,
        /// `Asked.antt`.
        /// Needs: moments don't fall; memory, where a port is given.
        /// Leaves open: that a real NAT does the same.
        ensures answer { (h : List NatEntry) → NatStandsFor self.old h →
            GivesAnswer self.old.settings (nat_answer self.old.settings h now.0 inside dst) result }
        /// See `answer`.
        ensures stands { IfOk result (λ ep. (h : List NatEntry) → NatStandsFor self.old h →
            NatStandsFor self.new (Out (record { moment = now; inside = inside; dst = dst; port = ep.port }) ∷ h)) }
        /// See `answer`.
        ensures refused { OnErr result (StandsAsBefore self.old self.new) }

        /// See `answer`.
        ensures moment { self.new.moment ≡ now.0 }
        /// See `answer`.
        ensures settings { self.new.settings ≡ self.old.settings }
    {
        self.moment = now;
        asked::sweep(&mut self.asked, &mut self.swept, self.settings.idle, now);
        let departure = Departure {
            moment: now,
            inside,
            dst,
        };
        mappings::send(
            &mut self.places,
            &mut self.index,
            &mut self.front,
            &mut self.asked,
            &self.settings,
            departure,
        )
    }

    /// The inside endpoint that a datagram from `src` to an external port is let in to. It refreshes nothing.
    pub fn inward(&self, now: Millis, src: Ep, port: u16) -> Option<Ep>
        requires clock { self.now.moment ≤ now.0 }
        /// `inward` gives the inside endpoint that the history lets in, or none, and changes nothing.
        /// Needs: moments don't fall.
        ensures answer { (h : List NatEntry) → NatStandsFor self.now h →
            result ≡ lets_in self.now.settings h now.0 src port }
    {
        let incoming = Incoming {
            moment: now,
            src,
            port,
        };
        mappings::inside_at(&self.places, &self.asked, &self.settings, incoming)
    }

    /// The port that the mapping of datagrams from `inside` to `dst` holds now: none where it isn't live. What asks
    /// what a NAT keeps calls it.
    pub fn port(&self, now: Millis, inside: Ep, dst: Ep) -> Option<u16>
        requires clock { self.now.moment ≤ now.0 }
        /// `port` gives the port that the history has live for the key, and changes nothing.
        /// Needs: moments don't fall.
        ensures answer { (h : List NatEntry) → NatStandsFor self.now h →
            result ≡ live_port self.now.settings.kind inside dst (live_after self.now.settings h now.0) }
    {
        index::held_port(&self.places, &self.index, &self.settings, now, inside, dst)
    }

    /// The external endpoint that a datagram from `inside` to `dst` would leave from, were it sent now: `outward`
    /// without the datagram, and without a want of memory.
    pub fn leaves(&self, now: Millis, inside: Ep, dst: Ep) -> Result<Ep, NatRefusal>
        requires clock { self.now.moment ≤ now.0 }
        /// `leaves` gives where the history lets the datagram leave, or the refusal, and changes nothing.
        /// Needs: moments don't fall.
        ensures answer { (h : List NatEntry) → NatStandsFor self.now h →
            result ≡ leaves_from self.now.settings h now.0 inside dst }
    {
        let departure = Departure {
            moment: now,
            inside,
            dst,
        };
        // a copy: a search moves it on
        let mut front = self.front;
        let port = mappings::answer(
            &self.places,
            &self.index,
            &mut front,
            &self.settings,
            departure,
        )?;
        Ok(Ep {
            ip: self.settings.external,
            port,
        })
    }

    /// The inside endpoint that a datagram from `src` to an external port would be let in to, had `sent` been sent
    /// from the port that `leaves` gives it.
    pub fn lets_in_once(&self, now: Millis, src: Ep, port: u16, sent: Outward) -> Option<Ep>
        requires clock { self.now.moment ≤ sent.moment.0 }
        requires past { sent.moment.0 ≤ now.0 }
        /// `lets_in_once` gives what `inward` would, had a datagram been sent that the history lets leave from its
        /// port, and changes nothing.
        /// Needs: moments don't fall.
        ensures answer { (h : List NatEntry) → NatStandsFor self.now h →
            nat_answer self.now.settings h sent.moment.0 sent.inside sent.dst ≡ Ok sent.port →
            result ≡ lets_in self.now.settings (Out sent ∷ h) now.0 src port }
    {
        let incoming = Incoming {
            moment: now,
            src,
            port,
        };
        mappings::inside_with(&self.places, &self.asked, &self.settings, incoming, &sent)
    }

    /// Drops the mappings and permissions of one inside endpoint. Its ports are free from then on.
    pub fn forget(&mut self, inside: Ep)
        /// `forget` and `restart` join the history.
        ensures stands { (h : List NatEntry) → NatStandsFor self.old h → NatStandsFor self.new (Forget inside ∷ h) }
        /// See `stands`.
        ensures moment { self.new.moment ≡ self.old.moment }
        /// See `stands`.
        ensures settings { self.new.settings ≡ self.old.settings }
    {
        mappings::forget(
            &mut self.places,
            &mut self.index,
            &mut self.front,
            &mut self.asked,
            &self.settings,
            inside,
        );
    }

    /// Drops all mappings and permissions.
    pub fn restart(&mut self)
        /// See `Nat::forget`: `stands`.
        ensures stands { (h : List NatEntry) → NatStandsFor self.old h → NatStandsFor self.new (Restart ∷ h) }
        /// See `Nat::forget`: `stands`.
        ensures moment { self.new.moment ≡ self.old.moment }
        /// See `Nat::forget`: `stands`.
        ensures settings { self.new.settings ≡ self.old.settings }
    {
        self.places.clear();
        self.index.clear();
        self.front.clear();
        self.asked.clear();
    }
}
