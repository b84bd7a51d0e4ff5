//! UDP datagrams over IPv4, read, written and made.
ghost use Rattle.std.specs.Prelude.{◌≤◌, ◌<◌};

use crate::vectors::{ADVERTISEMENT, HOST, SERVER};
use std::test::Fail;
use td_base::Room;
use td_ipv4::{HEAD_MIN, Ip4Fault, make, read, write};

/// A captured datagram from `HOST` to `SERVER`, which carries a solicitation.
const CAPTURED: &str =
    "450000590000000040118e58c6336407c00002019c400dd80045935f000100000102030405060708006000000000083afffe80000000000000000063bf39cc9bf8ff020000000000000000000000000002850043b300000000";

/// The first of its answer, whose body is the advertisement, and that answer's checksum of UDP, from another program.
const ANSWER_HEAD: [u8; HEAD_MIN] = [
    0x45, 0, 0, 0x91, 0, 0, 0, 0, 0x40, 0x11, 0x8e, 0x20, 0xc0, 0, 2, 1, 0xc6, 0x33, 0x64, 7,
];

const ANSWER_SUM: [u8; 2] = [0x0e, 0xb6];

/// A body from `HOST` to `SERVER` that brings the checksum of UDP to 0, from another program.
const SUMS_TO_0: [u8; 2] = [0x69, 0x85];

/// A datagram with a word of options, and no body.
const WITH_OPTIONS: [u8; 32] = [
    0x46, 0xb8, 0, 32, 0x12, 0x34, 0xc0, 0, 1, 17, 0xab, 0xcd, 192, 0, 2, 1, 198, 51, 100, 7, //
    1, 1, 1, 0, 0x0d, 0xd8, 0x9c, 0x40, 0, 8, 0, 0,
];

fn begin(bytes: &[u8; 89], len: usize) -> &[u8]
    requires { len ≤ 89 }
{
    &bytes[..len]
}

/// The fault of the datagram with options where a byte of it is another.
fn fault_with(place: usize, byte: u8) -> Option<Ip4Fault>
    requires { place < 32 }
{
    let mut bytes = WITH_OPTIONS;
    bytes[place] = byte;
    read(&bytes).err()
}

#[test]
fn a_captured_datagram_both_ways(rt: HostRuntime) -> Result<(), Fail> {
    let mut bytes = [0u8; 89];
    hex::decode_to_slice(CAPTURED, &mut bytes)
        .ok()
        .ok_or("hex")?;
    let datagram = read(&bytes).ok().ok_or("a datagram")?;
    assert!(rt; datagram.src == HOST && datagram.dst == SERVER);
    assert!(rt;
        (
            datagram.ttl,
            datagram.head_sum,
            datagram.udp_sum,
            datagram.body.len()
        ) == (64, 0x8e58, 0x935f, 61)
    );
    let mut out = [0u8; 89];
    assert!(rt; make(HOST, SERVER, datagram.body, &mut out) == Ok(89));
    assert!(rt; out == bytes);
    let mut short = [0u8; 88];
    assert!(rt; make(HOST, SERVER, datagram.body, &mut short) == Err(Room { needed: 89 }));
    for len in 0..89 {
        let want = if len < HEAD_MIN {
            Ip4Fault::Short { len }
        } else {
            Ip4Fault::Length {
                said: 89,
                there: len,
            }
        };
        assert!(rt; read(begin(&bytes, len)).err() == Some(want));
    }
    Ok(())
}

#[test]
fn its_answer_is_made(rt: HostRuntime) -> Result<(), Fail> {
    let mut body = [0u8; 117];
    hex::decode_to_slice(ADVERTISEMENT, &mut body)
        .ok()
        .ok_or("hex")?;
    let mut out = [0u8; 145];
    assert!(rt; make(SERVER, HOST, &body, &mut out) == Ok(145));
    assert!(rt; out[..HEAD_MIN] == ANSWER_HEAD[..]);
    assert!(rt; out[26..28] == ANSWER_SUM[..]);
    let mut out = [0u8; 30];
    assert!(rt; make(HOST, SERVER, &SUMS_TO_0, &mut out) == Ok(30));
    assert!(rt; (out[26], out[27]) == (0xff, 0xff));
    Ok(())
}

#[test]
fn each_field_has_its_place_in_both_headers(rt: HostRuntime) -> Result<(), Fail> {
    let datagram = read(&WITH_OPTIONS).ok().ok_or("a datagram")?;
    assert!(rt; datagram.src == SERVER && datagram.dst == HOST);
    assert!(rt;
        (datagram.tos, datagram.id, datagram.frag, datagram.ttl) == (0xb8, 0x1234, 0xc000, 1)
    );
    assert!(rt; (datagram.head_sum, datagram.udp_sum) == (0xabcd, 0));
    assert!(rt; datagram.options == [1, 1, 1, 0].as_slice() && datagram.body.is_empty());
    let mut out = [0u8; 32];
    assert!(rt; write(&datagram, &mut out) == Ok(32));
    assert!(rt; out == WITH_OPTIONS);
    Ok(())
}

#[test]
fn each_fault_of_a_datagram(rt: HostRuntime) {
    let length = |said| Some(Ip4Fault::Length { said, there: 32 });
    let udp_length = |said| Some(Ip4Fault::UdpLength { said, there: 8 });
    for (found, want) in [
        (fault_with(0, 0x66), Some(Ip4Fault::Version { nibble: 6 })),
        (fault_with(0, 0x44), Some(Ip4Fault::Head { words: 4 })),
        (fault_with(0, 0x49), Some(Ip4Fault::Head { words: 9 })),
        (fault_with(3, 31), length(31)),
        (fault_with(3, 33), length(33)),
        (
            fault_with(6, 0x20),
            Some(Ip4Fault::Fragment { field: 0x2000 }),
        ),
        (fault_with(7, 1), Some(Ip4Fault::Fragment { field: 0xc001 })),
        (fault_with(6, 0x40), None),
        (fault_with(9, 6), Some(Ip4Fault::Protocol { number: 6 })),
        (fault_with(0, 0x47), Some(Ip4Fault::UdpShort { len: 4 })),
        (fault_with(29, 9), udp_length(9)),
        (fault_with(29, 7), udp_length(7)),
    ] {
        assert!(rt; found == want);
    }
}
