//! The ICMPv6 message.
/// An ICMPv6 message, its parts lent by the bytes that it was read from.
#[derive(Clone, Copy, Debug)]
pub enum Msg<'a> {
    EchoRequest {
        id: u16,
        seq: u16,
        body: &'a [u8],
    },
    EchoReply {
        id: u16,
        seq: u16,
        body: &'a [u8],
    },
    RouterSolicit {
        options: &'a [u8],
    },
    /// The lifetime is in seconds, the reachable and the retransmission time in milliseconds.
    RouterAdvert {
        hop: u8,
        flags: u8,
        life: u16,
        reach: u32,
        retrans: u32,
        options: &'a [u8],
    },
    /// A message of any other type, its bytes after the checksum as they are.
    Other {
        kind: u8,
        code: u8,
        rest: &'a [u8],
    },
}
