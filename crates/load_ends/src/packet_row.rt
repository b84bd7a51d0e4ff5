//! What is kept of a packet and of the reply to it.
ghost use Rattle.std.specs.Prelude.{◌≡◌};
ghost use Rattle.load_ends.specs.Changes.{packet_number, kept_in_row, with_part};

use crate::load_row::LoadRow;
use loads::Load;

/// A packet that a host handed in, by its record and its node, and what is kept of it and of the reply to it.
#[derive(Clone, Copy, Debug)]
pub struct PacketRow {
    /// The number of the record that handed it in.
    pub record_number: u64,
    /// The node of that record.
    pub node: Option<u16>,
    pub packet: LoadRow,
    pub reply: LoadRow,
}

/// The number of the packet of a load.
pub fn packet_number(load: Load) -> u32
    ensures { result ≡ packet_number load }
{
    match load {
        Load::Packet(number) => number,
        Load::ReplyTo(number) => number,
    }
}

impl PacketRow {
    /// What is kept of the packet, or of the reply.
    pub fn part(self, load: Load) -> LoadRow
        ensures { result ≡ kept_in_row load self }
    {
        match load {
            Load::Packet(_) => self.packet,
            Load::ReplyTo(_) => self.reply,
        }
    }

    /// The row with this kept of the packet, or of the reply.
    pub fn with_part(self, load: Load, part: LoadRow) -> PacketRow
        ensures { result ≡ with_part load part self }
    {
        let mut row = self;
        match load {
            Load::Packet(_) => row.packet = part,
            Load::ReplyTo(_) => row.reply = part,
        }
        row
    }
}
