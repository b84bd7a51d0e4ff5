//! An echo request and its reply, made by another program, and the fates of what is sent.
use native_host::{receive, send};
use td_base::{DATAGRAM_MAX, Ip6};
use teredo_node::Fate;

// 2001:db8::1
const ASKING: Ip6 = Ip6([0x20, 1, 0x0d, 0xb8, 0, 0, 0, 0, 0, 0, 0, 0, 0, 0, 0, 1]);

// 2001:db8::2
const ASKED: Ip6 = Ip6([0x20, 1, 0x0d, 0xb8, 0, 0, 0, 0, 0, 0, 0, 0, 0, 0, 0, 2]);

// Identifier 1234, sequence number 7 and three bytes, in a packet with a class, a flow and hop limit 255.
const REQUEST: [u8; 51] = [
    0x6a, 0xb0, 0, 1, 0, 11, 58, 255, //
    0x20, 1, 0x0d, 0xb8, 0, 0, 0, 0, 0, 0, 0, 0, 0, 0, 0, 1, //
    0x20, 1, 0x0d, 0xb8, 0, 0, 0, 0, 0, 0, 0, 0, 0, 0, 0, 2, //
    0x80, 0, 0x4d, 0xa7, 0x12, 0x34, 0, 7, b'a', b'b', b'c',
];

const REPLY: [u8; 51] = [
    0x60, 0, 0, 0, 0, 11, 58, 64, //
    0x20, 1, 0x0d, 0xb8, 0, 0, 0, 0, 0, 0, 0, 0, 0, 0, 0, 2, //
    0x20, 1, 0x0d, 0xb8, 0, 0, 0, 0, 0, 0, 0, 0, 0, 0, 0, 1, //
    0x81, 0, 0x4c, 0xa7, 0x12, 0x34, 0, 7, b'a', b'b', b'c',
];

#[test]
fn an_echo_request_is_answered(rt: HostRuntime) {
    let mut out = [0; DATAGRAM_MAX];
    assert!(rt; receive(&REQUEST, &mut out) == Some(REPLY.len()));
    assert!(rt; out.starts_with(&REPLY));
    // A reply is kept.
    assert!(rt; receive(&REPLY, &mut out) == None);
}

#[test]
fn a_packet_is_sent_by_its_source(rt: HostRuntime) {
    assert!(rt; send(ASKING, &REQUEST) == Fate::SentSix);
    assert!(rt; send(ASKED, &REQUEST) == Fate::Source);
}
