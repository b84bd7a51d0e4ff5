//! Laws of every history.
ghost use Rattle.theory_loads.specs.Carried.{EachCarriesItsPacket};
ghost use Rattle.theory_loads.specs.Arrivals.{EachArrivalIsHanded};

/// What carries a packet of a host has its bytes: the IPv6 packet of an entry of the wire, a packet that waits, and one
/// that is held are what the host handed in, byte for byte; what carries the reply to it is the echo reply that a
/// native host makes of it. This holds whatever strangers do, and whichever NATs are behind others. It is stated in
/// `Carried.antt`, with what carries which packet in `loads/Loads.antt`; `crates/worked_lines/proofs/BytesFacts.antt`
/// has the bytes of a packet and of a reply, computed.
/// Needs: a history of a topology that keeps its rules.
/// Leaves open: what else has these bytes.
pub fn carries_packets()
    ensures { EachCarriesItsPacket }
{}

/// Where a record says that a packet of a host arrives, it hands just these bytes to a client's host, at once or late,
/// or delivers them to a native host; so it is of the reply to a packet. This holds whatever strangers do, and
/// whichever NATs are behind others. It is stated in `Arrivals.antt`, with what a record says in `loads/Sayings.antt`.
/// Needs: a history of a topology that keeps its rules.
/// Leaves open: that all that is handed over is a packet of a host.
pub fn arrivals_are_handed()
    ensures { EachArrivalIsHanded }
{}
