//! The events of a scenario.
use crate::target::Target;
use td_base::{Ep, Octets};

/// The most events of a scenario.
pub const EVENTS_MAX: usize = 50_000;

/// How far one event advances the time at most, in milliseconds.
pub const ADVANCE_MAX_MS: u64 = 1_000_000_000;

/// The largest number of an entry that an event can name.
pub const ENTRY_NUMBER_MAX: u32 = 65_535;

/// The largest sequence number of an echo request.
pub const SEQUENCE_MAX: u16 = 65_535;

/// The most bytes of a body that a host sends.
pub const BODY_MAX: usize = 1_240;

/// The greatest number of a send that an event makes fail: a step has eight at most.
pub const FAULT_MAX: u8 = 7;

/// What a scenario asks for. Nodes stand by their numbers.
#[derive(Drop)]
pub enum Event {
    /// Let time pass, in milliseconds, and play what falls due.
    Advance { ms: u64 },
    /// Deliver an entry of the wire to whoever is at its destination.
    Deliver { number: u32 },
    /// Deliver the least-numbered entry that was never delivered.
    Next,
    /// The host of a client or native host sends a packet with this body.
    Host { node: u16, to: Target, body: Octets },
    /// It sends an echo request with this sequence number.
    Echo { node: u16, to: Target, seq: u16 },
    /// It hands in these bytes.
    Raw { node: u16, bytes: Octets },
    /// Put a datagram on the wire that nobody in the scenario sent.
    Stranger { src: Ep, dst: Ep, bytes: Octets },
    /// Put an entry's bytes on the wire again, between other endpoints.
    Copy { number: u32, src: Ep, dst: Ep },
    /// A node starts anew.
    Restart { node: u16 },
    /// A NAT drops the mappings and permissions of a client behind it.
    Forget { nat: u16, client: u16 },
    /// In the next record that has sends, the one of this number fails, counted from 0.
    Fault { send: u8 },
    /// Deliver the least-numbered entry that was never delivered, until there is none.
    Settle,
}
