//! The list of a scenario's events.
ghost use Rattle.std.specs.Prelude.{◌≡◌, ◌∷◌, [], ◌++◌, OnOk, OnErr};

use crate::event::Event;
use std::alloc::Global;
use std::marker::Model;
use td_base::NoMemory;

/// Events in order.
#[derive(Drop)]
pub struct Events {
    events: Vec<Event>,
}

impl Model for Events {
    ghost use Rattle.std.specs.Prelude.{List};
    ghost use Rattle.events.specs.declared.event.Event.{Event};

    ghost Value = { List Event };

    ghost view = { λ e. e.events.items };
}

impl Events {
    /// No events.
    pub fn new(alloc: Global) -> Events
        /// Events are kept in the order in which they were added.
        /// Needs: memory.
        ensures { result ≡ [] }
    {
        Events {
            events: Vec::new(alloc),
        }
    }

    /// The events in order.
    pub fn as_slice(&self) -> &[Event]
        /// See `Events::new`.
        ensures { result.now ≡ self.now }
    {
        self.events.as_slice()
    }

    /// Appends an event, or drops it where memory runs out.
    #[inline(always)]
    pub fn push(&mut self, event: Event) -> Result<(), NoMemory>
        /// See `Events::new`.
        ensures ok { OnOk result (self.new ≡ self.old ++ event ∷ []) }
        /// See `Events::new`.
        ensures err { OnErr result (self.new ≡ self.old) }
    {
        self.events.push(event)?;
        Ok(())
    }
}
