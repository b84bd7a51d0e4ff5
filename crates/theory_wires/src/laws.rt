//! Laws of every wire.
ghost use Rattle.theory_wires.specs.ReadsBack.{EachWireReadsBack};
ghost use Rattle.theory_wires.specs.CleanWire.{EachWireIsClean};
ghost use Rattle.theory_wires.specs.HoldsWire.{ScenariosHoldWires};

/// The capture of a history holds one record for each entry of the wire, in order, each whole: a datagram's is read as
/// this datagram, with both checksums right, and a packet's of the IPv6 side as no datagram. It has at most 24 bytes,
/// and 1,444 for each entry.
/// Needs: a history of a topology that keeps its rules.
pub fn wire_reads_back()
    ensures { EachWireReadsBack }
{}

/// An audit of it for a server of the topology is clean, and counts all entries, those to the server, those from it,
/// and those that are neither.
/// Needs: a history of a topology that keeps its rules, in which no `stranger` and no `copy` has an endpoint of the
/// server as its source, and no entry to one of the two was delivered twice.
/// Leaves open: what an audit finds where that isn't so; captures of other networks.
pub fn wire_is_clean()
    ensures { EachWireIsClean }
{}

/// Both are so of the history of every scenario, as far as it was played, whichever NATs are behind others.
/// Needs: nodes that keep the rules, and events that they can be asked for, as each scenario has that is read; for the
/// audit the same.
pub fn scenarios_hold_wires()
    ensures { ScenariosHoldWires }
{}
