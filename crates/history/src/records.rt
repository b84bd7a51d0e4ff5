//! The records of a history.
use crate::act::Act;
use crate::late_list::Lates;
use crate::mark_list::Marks;
use td_base::{Ip6, Millis};
use teredo_node::Fate;

/// What a report says of one step of the laboratory.
#[derive(Drop)]
pub struct Record {
    /// The event's number.
    pub event: u32,
    pub moment: Millis,
    pub act: Act,
    /// The node that decided, or that acted or was named first.
    pub node: Option<u16>,
    pub fate: Fate,
    /// The address that a client got.
    pub address: Option<Ip6>,
    /// The length of the packet that was handed to a client's host.
    pub handed: Option<usize>,
    /// The lengths of the packets that had been held and that it was handed now.
    pub late: Lates,
    /// How many packets that waited or were held were dropped.
    pub gone: u16,
    pub marks: Marks,
}
