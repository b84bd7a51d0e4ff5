//! Datagrams and addresses, each once.
use std::alloc::Global;
use std::test::Fail;
use td_base::{Ep, Ip4, Ip6};

/// A Router Solicitation behind the nonce 0102030405060708, with the checksum 43b3.
pub(crate) const SOLICITATION: &str =
    "000100000102030405060708006000000000083afffe80000000000000000063bf39cc9bf8ff020000000000000000000000000002850043b300000000";

/// The advertisement that answers it, behind nonce and origin.
pub(crate) const ADVERTISEMENT: &str =
    "00010000010203040506070800000063bf39cc9bf86000000000383afffe800000000000008000f2273ffffdfefe80000000000000000063bf39cc9bf88600639800000000000000000000000003044040ffffffffffffffff0000000020010000c000020100000000000000000501000000000500";

/// The head of a capture of raw IP in network order, with microseconds.
pub(crate) const CAPTURE_HEAD: &str = "a1b2c3d40002000400000000000000000000ffff00000065";

/// The record's numbers, the IPv4 and the UDP header in front of `SOLICITATION`.
pub(crate) const FIRST_RECORD: &str =
    "00000000000000000000005900000059450000590000000040118e58c6336407c00002019c400dd80045935f";

/// The same in front of `ADVERTISEMENT`.
pub(crate) const SECOND_RECORD: &str =
    "00000000000000000000009100000091450000910000000040118e20c0000201c63364070dd89c40007d0eb6";

/// A bubble from one client to another.
pub(crate) const BUBBLE: &str =
    "6000000000003bff200100004136e378800063bf3ffffdd2200100004136e378000063bf39cc9bf8";

/// A packet of class b8 and flow 12345, with a body of two bytes.
pub(crate) const DATA: &str =
    "6b812345000211402001000000000000000000000000000120010000000000000000000000000002abcd";

/// The hidden endpoint of `HOST`, as an origin has it.
pub(crate) const ORIGIN: &str = "000063bf39cc9bf8";

/// The endpoint that the solicitation came from.
pub(crate) const HOST: Ep = Ep {
    ip: Ip4([198, 51, 100, 7]),
    port: 40_000,
};

/// The server's endpoint.
pub(crate) const SERVER: Ep = Ep {
    ip: Ip4([192, 0, 2, 1]),
    port: 3544,
};

/// fe80::63bf:39cc:9bf8, its link-local address.
pub(crate) const HOST_LINK: Ip6 = Ip6([
    0xfe, 0x80, 0, 0, 0, 0, 0, 0, 0, 0, 0x63, 0xbf, 0x39, 0xcc, 0x9b, 0xf8,
]);

/// fe80::8000:f227:3fff:fdfe, the server's.
pub(crate) const SERVER_LINK: Ip6 = Ip6([
    0xfe, 0x80, 0, 0, 0, 0, 0, 0, 0x80, 0, 0xf2, 0x27, 0x3f, 0xff, 0xfd, 0xfe,
]);

/// 2001:0:4136:e378:8000:63bf:3fff:fdd2, where the bubble comes from.
pub(crate) const CLIENT: Ip6 = Ip6([
    0x20, 0x01, 0, 0, 0x41, 0x36, 0xe3, 0x78, 0x80, 0, 0x63, 0xbf, 0x3f, 0xff, 0xfd, 0xd2,
]);

/// The bytes that hexadecimal text says.
pub(crate) fn bytes_of(alloc: Global, text: &str) -> Result<Vec<u8>, Fail> {
    Ok(hex::decode(alloc, text).ok().ok_or("hex")?)
}
