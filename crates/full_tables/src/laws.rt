//! Why a first packet needs room at both clients.
ghost use Rattle.full_tables.specs.FullTables.{IsFirstWithRoom, FullSenderFails, FullReceiverFails};

/// What these two say of the clients, the record and the packet is all that the theorem on first packets needs, but for
/// room. With room at both it is a first packet. It is stated in `FullTables.antt`, with
/// `theory_first_packets/FirstPacket.antt`.
pub fn first_with_room()
    ensures { IsFirstWithRoom }
{}

/// There is a history in which a first packet is dropped, and draws nothing, since its sender lists 256 others. Both
/// are settled, neither lists the other, and the receiver has room.
/// Leaves open: other kinds of NATs.
pub fn full_sender_fails()
    ensures { FullSenderFails }
{}

/// There is one in which all that a first packet draws is delivered, three datagrams, and its receiver, which lists 256
/// others, hands its host nothing. Both are settled, neither lists the other, and the sender has room. The straight
/// bubble is shut out by the receiver's NAT; the server sends the other one on.
/// Leaves open: the other orders of delivery.
pub fn full_receiver_fails()
    ensures { FullReceiverFails }
{}
