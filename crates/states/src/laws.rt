//! What holds of every record.
ghost use Rattle.states.specs.Lasting.{NatFactsLast, PeerFactsLast};
ghost use Rattle.states.specs.Marked.{PassedIsMarked};
ghost use Rattle.states.specs.PeerFates.{LatestIsConcerned};
ghost use Rattle.states.specs.Walked.{PassedIsWalked, WaysKeepPorts};

/// Where the NAT of a client is behind no other one, what it let out of a record is what the marks of its datagrams tell, in their
/// order: each by the port that it left from.
/// Leaves open: a NAT behind another one, whose port no mark tells.
pub fn passed_is_marked()
    ensures { PassedIsMarked }
{}

/// Whether a record concerned a peer of its node is told by its fate; and then that peer is the latest one of the node's journal,
/// which is listed.
pub fn latest_is_concerned()
    ensures { LatestIsConcerned }
{}

/// What the NATs of a client's way let out of a record is found again after it, datagram by datagram: each NAT of the way, from
/// the client's own one outwards, that has a port live for the datagram let it out by that port, up to the first that has none
/// or that the datagram is for. So whoever writes what a record changed of NATs needs its marks, and the NATs as they are after
/// it.
/// Needs: a topology that keeps the rules, a chain that does, and a history of them; and that the record is of a client's act.
pub fn passed_is_walked()
    ensures { PassedIsWalked }
{}

/// Each NAT that let something out of a client's record has, after it, the port live for the datagram by which it let that out.
/// Needs: as `passed_is_walked`.
pub fn ways_keep_ports()
    ensures { WaysKeepPorts }
{}

/// What a NAT keeps at a moment it keeps until its end, where nothing more happens to it: each port and whom the NAT lets in there,
/// in the same order, and nothing else.
/// Needs: the history is one of a NAT, whose mappings live for a while.
pub fn nat_facts_last()
    ensures { NatFactsLast }
{}

/// What is told of a peer at a moment is told as long as the peer is listed, where nothing more happens to its node, with those of
/// its tries that still count: of these peers and no others, in the same order.
pub fn peer_facts_last()
    ensures { PeerFactsLast }
{}
