//! Laws of packets as lists of bytes.
ghost use Rattle.ipv6_packet.specs.Laws.{PacketReadsBack, PacketIsSpelled, PacketIsBytes};
ghost use Rattle.ipv6_packet.specs.Numbers.{PacketNumbers};

/// As lists of bytes: a spelling is read as its packet; bytes that are a packet are its spelling; a spelling has 40
/// bytes more than the body. These are laws over all packets and all lists of bytes. A spelling is bytes where the body
/// is.
pub fn packet_reads_back()
    ensures { PacketReadsBack }
{}

/// Bytes that are a packet are its spelling.
/// See `packet_reads_back`.
pub fn packet_is_spelled()
    ensures { PacketIsSpelled }
{}

/// The spelling of a packet is the header's bytes and the body's.
/// See `packet_reads_back`.
pub fn packet_is_bytes()
    ensures { PacketIsBytes }
{}

/// The numbers of the header are the standards'.
pub fn packet_numbers()
    ensures { PacketNumbers }
{}
