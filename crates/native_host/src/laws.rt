//! Laws of what a native host sends.
ghost use Rattle.native_host.specs.NativeSends.{EachIsOwnPacket, EachIsReply, EachReplyIsMade};

/// Of its own a host sends what it was given, a packet from its address to a global one, and else replies only to echo
/// requests. A reply goes back to the global address that asked.
pub fn each_is_own_packet()
    ensures { EachIsOwnPacket }
{}

/// Else it sends replies to echo requests alone.
/// See `each_is_own_packet`.
pub fn each_is_reply()
    ensures { EachIsReply }
{}

/// A reply is bytes that fit into a datagram, where the request is.
pub fn each_reply_is_made()
    ensures { EachReplyIsMade }
{}
