//! The rows of all packets.
ghost use Rattle.std.specs.Prelude.{◌≤◌, length};
ghost use Rattle.events.specs.declared.event.TheConstants.{EVENTS_MAX};

use crate::packet_row::PacketRow;
use events::EVENTS_MAX;

/// For each packet that was handed in, in order: what records said of it and of the reply to it. A scenario hands in no more
/// than it has events.
#[derive(Drop)]
pub struct EndsTable {
    pub(crate) rows: Vec<PacketRow>,
    ghost few: { length rows.items ≤ EVENTS_MAX },
}
