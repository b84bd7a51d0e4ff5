//! What holds of every datagram that a server is given.
ghost use Rattle.server_core.specs.Laws.{FateOfRow, OneOutput, OneOutcome, AdvertReadsBack, ForwardedReadsBack, EachTellsWhereTo};
ghost use Rattle.server_core.specs.RuleWarrants.{RuleIsWarranted};
ghost use Rattle.server_core.specs.Outgoing.{EachIsOutgoing, EachIsFromClient, EachOutputIsMade};
ghost use Rattle.server_core.specs.AmongServers.{EachEndsAmongServers};
ghost use Rattle.server_core.specs.Numbers.{ServerNumbers};

/// A datagram has a fate of the table, one output at most, and one outcome. For every server, side, source and
/// datagram, something is sent, or a packet goes on to the IPv6 side, or it is dropped.
pub fn fate_of_row()
    ensures { FateOfRow }
{}

/// A datagram has one output at most.
/// See `fate_of_row`.
pub fn one_output()
    ensures { OneOutput }
{}

/// A datagram has one outcome.
/// See `fate_of_row`.
pub fn one_outcome()
    ensures { OneOutcome }
{}

/// An advertisement reads back: its nonce, its origin, and a Router Advertisement whose options are the server's prefix
/// and the MTU. It tells, too, how many bytes there are. It is stated in `Laws.antt`, the bytes in `Outputs.antt`.
/// Needs: addresses and an endpoint of as many bytes as they have, and a nonce of 64 bits.
pub fn advert_reads_back()
    ensures { AdvertReadsBack }
{}

/// A packet that goes on is read as it was, behind the origin that was put in front of it, or behind nothing.
/// Needs: bytes that are a payload, with a packet of at most 1,280 bytes.
pub fn forwarded_reads_back()
    ensures { ForwardedReadsBack }
{}

/// Each datagram that is sent is a payload; where it has an authentication, its origin is the endpoint that it goes to.
/// This holds for every side and every datagram.
/// Needs: the server's address, the source and the datagram are made of bytes.
/// Leaves open: where a packet without authentication goes, which `Server::answer`: `row` says.
pub fn each_tells_where_to()
    ensures { EachTellsWhereTo }
{}

/// A rule that is no drop is given only where the conditions of its line hold, and of no line before it.
/// Leaves open: the drops.
pub fn rule_is_warranted()
    ensures { RuleIsWarranted }
{}

/// Each datagram that is sent is an advertisement to whoever asked, or a packet that goes on, bytes and at most 1,400
/// of them. This holds for every side and every datagram.
/// Needs: for the bytes, the server's address, the source and the datagram are made of bytes.
pub fn each_is_outgoing()
    ensures { EachIsOutgoing }
{}

/// A packet with a Teredo source goes on only from the endpoint that its source embeds, and never from the server's
/// own.
/// Needs: for the bytes, the server's address, the source and the datagram are made of bytes.
/// Leaves open: who is at that endpoint.
pub fn each_is_from_client()
    ensures { EachIsFromClient }
{}

/// What a server sends draws nothing from another server, where it comes from the server's address: so no datagram goes
/// round between servers. Where it comes to the server itself, `answer` says the same.
/// Needs: another primary address, which the servers of a topology have, and a datagram of bytes.
pub fn each_ends_among_servers()
    ensures { EachEndsAmongServers }
{}

/// What a server sends are bytes, and not too many.
/// See `each_is_outgoing`.
pub fn each_output_is_made()
    ensures { EachOutputIsMade }
{}

/// The lengths of what a server sends are the standard's.
pub fn server_numbers()
    ensures { ServerNumbers }
{}
