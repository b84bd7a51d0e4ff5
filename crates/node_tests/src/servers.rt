//! A datagram for each line of the table, and the answer that it draws.

use server_core::{Answer, Server};
use std::test::Fail;
use td_base::{DATAGRAM_MAX, Ep, Ip4, Millis, Policy, Side, Span};
use teredo_node::{Endpoint, Fate, Step};

const CLIENT: Ep = Ep {
    ip: Ip4([198, 51, 100, 7]),
    port: 40000,
};

const OTHER_CLIENT: Ep = Ep {
    ip: Ip4([203, 0, 113, 5]),
    port: 9,
};

/// A client's solicitation with a nonce.
const SOLICITATION: &str =
    "000100000102030405060708006000000000083afffe80000000000000000063bf39cc9bf8ff020000000000000000000000000002850043b300000000";

#[derive(Clone, Copy)]
struct Line {
    from: Ep,
    datagram: &'static str,
    answer: Answer,
    sent: &'static str,
}

fn ep(ip: [u8; 4], port: u16) -> Ep {
    Ep { ip: Ip4(ip), port }
}

fn dropped(from: Ep, fate: Fate, datagram: &'static str) -> Line {
    Line {
        from,
        datagram,
        answer: Answer::Drop { fate },
        sent: "",
    }
}

fn sent(fate: Fate, side: Side, to: Ep, datagram: &'static str, sent: &'static str) -> Line {
    Line {
        from: CLIENT,
        datagram,
        answer: Answer::Send {
            fate,
            side,
            to,
            len: sent.len() / 2,
        },
        sent,
    }
}

fn lines() -> [Line; 28] {
    [
        // malformed: a byte of the packet is missing
        dropped(
            CLIENT,
            Fate::Malformed,
            "6000000000083afffe80000000000000000063bf39cc9bf8ff020000000000000000000000000002850043b3000000",
        ),
        // keyed: an identifier
        dropped(
            CLIENT,
            Fate::Keyed,
            "000101006b0102030405060708006000000000083afffe80000000000000000063bf39cc9bf8ff020000000000000000000000000002850043b300000000",
        ),
        // keyed: a value
        dropped(
            CLIENT,
            Fate::Keyed,
            "000100016b0102030405060708006000000000083afffe80000000000000000063bf39cc9bf8ff020000000000000000000000000002850043b300000000",
        ),
        // kind: UDP
        dropped(
            CLIENT,
            Fate::Kind,
            "600000000004114020010000c0000201000063bf39cc9bf820010000c00002010000fff634ff8efa61626364",
        ),
        // kind: next header 59, but a body
        dropped(
            CLIENT,
            Fate::Kind,
            "6000000000013b4020010000c0000201000063bf39cc9bf820010000c00002010000fff634ff8efa61",
        ),
        // icmp: the checksum of another solicitation
        dropped(
            CLIENT,
            Fate::Icmp,
            "6000000000083afffe80000000000000000063bf39cc9bf8ff0200000000000000000000000000028500c3b200000000",
        ),
        // source: port 0
        dropped(
            ep([198, 51, 100, 7], 0),
            Fate::Source,
            "6000000000083afffe80000000000000000063bf39cc9bf8ff020000000000000000000000000002850043b300000000",
        ),
        // source: a private address
        dropped(
            ep([10, 0, 0, 1], 40000),
            Fate::Source,
            "6000000000083afffe80000000000000000063bf39cc9bf8ff020000000000000000000000000002850043b300000000",
        ),
        // source: loopback
        dropped(
            ep([127, 0, 0, 1], 40000),
            Fate::Source,
            "6000000000083afffe80000000000000000063bf39cc9bf8ff020000000000000000000000000002850043b300000000",
        ),
        // loop: from the primary address
        dropped(
            ep([192, 0, 2, 1], 3544),
            Fate::Loop,
            "6000000000083afffe80000000000000000063bf39cc9bf8ff020000000000000000000000000002850043b300000000",
        ),
        // loop: from the secondary address
        dropped(
            ep([192, 0, 2, 2], 3544),
            Fate::Loop,
            "6000000000083afffe80000000000000000063bf39cc9bf8ff020000000000000000000000000002850043b300000000",
        ),
        // own_echo
        dropped(
            CLIENT,
            Fate::OwnEcho,
            "6000000000103afffe80000000000000000063bf39cc9bf8fe800000000000008000f2273ffffdfe800088f1000100020102030405060708",
        ),
        // advert: with a nonce
        sent(
            Fate::Advert,
            Side::Primary,
            CLIENT,
            "000100000102030405060708006000000000083afffe80000000000000000063bf39cc9bf8ff020000000000000000000000000002850043b300000000",
            "00010000010203040506070800000063bf39cc9bf86000000000383afffe800000000000008000f2273ffffdfefe80000000000000000063bf39cc9bf88600639800000000000000000000000003044040ffffffffffffffff0000000020010000c000020100000000000000000501000000000500",
        ),
        // advert: without one
        sent(
            Fate::Advert,
            Side::Primary,
            CLIENT,
            "6000000000083afffe80000000000000000063bf39cc9bf8ff020000000000000000000000000002850043b300000000",
            "000063bf39cc9bf86000000000383afffe800000000000008000f2273ffffdfefe80000000000000000063bf39cc9bf88600639800000000000000000000000003044040ffffffffffffffff0000000020010000c000020100000000000000000501000000000500",
        ),
        // advert: with the cone bit
        sent(
            Fate::Advert,
            Side::Secondary,
            CLIENT,
            "000100000102030405060708006000000000083afffe80000000000000800063bf39cc9bf8ff0200000000000000000000000000028500c3b200000000",
            "00010000010203040506070800000063bf39cc9bf86000000000383afffe800000000000008000f2273ffffdfefe80000000000000800063bf39cc9bf88600e39700000000000000000000000003044040ffffffffffffffff0000000020010000c000020100000000000000000501000000000500",
        ),
        // mismatch: another port
        dropped(
            ep([198, 51, 100, 7], 40001),
            Fate::Mismatch,
            "6000000000003bff20010000c0000201000063bf39cc9bf820010000c00002010000fff634ff8efa",
        ),
        // mismatch: another address
        dropped(
            ep([198, 51, 100, 8], 40000),
            Fate::Mismatch,
            "6000000000003bff20010000c0000201000063bf39cc9bf820010000c00002010000fff634ff8efa",
        ),
        // not_ours: for a client of another server
        dropped(
            CLIENT,
            Fate::NotOurs,
            "6000000000003bff20010db800000000000000000000000120010000c63364010000fff634ff8efa",
        ),
        // not_ours: for no client
        dropped(
            CLIENT,
            Fate::NotOurs,
            "6000000000003bff20010db800000000000000000000000120010db8000000000000000000000002",
        ),
        // embedded: a private address
        dropped(
            CLIENT,
            Fate::Embedded,
            "6000000000003bff20010000c0000201000063bf39cc9bf820010000c00002010000fff63f57fffe",
        ),
        // embedded: port 0
        dropped(
            CLIENT,
            Fate::Embedded,
            "6000000000003bff20010000c0000201000063bf39cc9bf820010000c63364010000ffff34ff8efa",
        ),
        // loop: for the primary address
        dropped(
            CLIENT,
            Fate::Loop,
            "6000000000003bff20010000c0000201000063bf39cc9bf820010000c00002010000f2273ffffdfe",
        ),
        // loop: for the secondary address
        dropped(
            CLIENT,
            Fate::Loop,
            "6000000000003bff20010000c0000201000063bf39cc9bf820010000c63364010000fff63ffffdfd",
        ),
        // forward_origin: a bubble, its own origin left out
        sent(
            Fate::ForwardOrigin,
            Side::Primary,
            OTHER_CLIENT,
            "000100000102030405060708000000fff834ff8ef86000000000003bff20010000c0000201000063bf39cc9bf820010000c00002010000fff634ff8efa",
            "000063bf39cc9bf86000000000003bff20010000c0000201000063bf39cc9bf820010000c00002010000fff634ff8efa",
        ),
        // forward_origin: from outside Teredo
        sent(
            Fate::ForwardOrigin,
            Side::Primary,
            OTHER_CLIENT,
            "6000000000103a4020010db800000000000000000000000120010000c00002010000fff634ff8efa80009bf0000100020102030405060708",
            "000063bf39cc9bf86000000000103a4020010db800000000000000000000000120010000c00002010000fff634ff8efa80009bf0000100020102030405060708",
        ),
        // forward: for a client of another server
        sent(
            Fate::Forward,
            Side::Primary,
            OTHER_CLIENT,
            "6000000000003bff20010000c0000201000063bf39cc9bf820010000c63364018000fff634ff8efa",
            "6000000000003bff20010000c0000201000063bf39cc9bf820010000c63364018000fff634ff8efa",
        ),
        // six
        Line {
            from: CLIENT,
            datagram: "000100000102030405060708006000000000103a4020010000c0000201000063bf39cc9bf820010db80000000000000000000000018000265d000100020102030405060708",
            answer: Answer::Six {
                span: Span { at: 13, len: 56 },
            },
            sent: "",
        },
        // dest: all nodes
        dropped(
            CLIENT,
            Fate::Dest,
            "6000000000003bff20010000c0000201000063bf39cc9bf8ff020000000000000000000000000001",
        ),
    ]
}

fn server(policy: Policy) -> Server {
    Server::new(Ip4([192, 0, 2, 1]), Ip4([192, 0, 2, 2]), policy)
}

#[test]
fn each_line_of_the_table(rt: HostRuntime) -> Result<(), Fail> {
    for (number, line) in lines().iter().enumerate() {
        let Line {
            from,
            datagram,
            answer,
            sent,
        } = *line;
        let datagram = hex::decode(rt.alloc(), datagram)?;
        let sent = hex::decode(rt.alloc(), sent)?;
        let mut out = [0; DATAGRAM_MAX];
        let found = server(Policy::Strict).answer(
            Side::Primary,
            from,
            datagram.as_slice(),
            &mut out,
        );
        assert!(rt; found == answer, "line {number}");
        assert!(rt; out.starts_with(sent.as_slice()), "line {number}");
    }
    Ok(())
}

/// The header of a message of 1,240 bytes between two clients, and what of it isn't 0.
const LARGEST: [u8; 44] = [
    0x60, 0x00, 0x00, 0x00, 0x04, 0xd8, 0x3a, 0x40, 0x20, 0x01, 0x00, 0x00, 0xc0, 0x00, 0x02, 0x01,
    0x00, 0x00, 0x63, 0xbf, 0x39, 0xcc, 0x9b, 0xf8, 0x20, 0x01, 0x00, 0x00, 0xc0, 0x00, 0x02, 0x01,
    0x00, 0x00, 0xff, 0xf6, 0x34, 0xff, 0x8e, 0xfa, 0x00, 0x00, 0x39, 0x73,
];

#[test]
fn the_largest_packet_goes_on(rt: HostRuntime) {
    let mut datagram = [0; 1281];
    datagram[..44].copy_from_slice(&LARGEST);
    let mut out = [0; DATAGRAM_MAX];
    let server = server(Policy::Strict);
    let largest = server.answer(Side::Primary, CLIENT, &datagram[..1280], &mut out);
    let forwarded = Answer::Send {
        fate: Fate::ForwardOrigin,
        side: Side::Primary,
        to: OTHER_CLIENT,
        len: 1288,
    };
    assert!(rt; largest == forwarded);
    datagram[5] += 1;
    let larger = server.answer(Side::Primary, CLIENT, &datagram, &mut out);
    assert!(rt; larger == Answer::Drop { fate: Fate::Big });
}

#[test]
fn loopback_is_answered_where_it_is_allowed(rt: HostRuntime) -> Result<(), Fail> {
    let datagram = hex::decode(rt.alloc(), SOLICITATION)?;
    let from = ep([127, 0, 0, 9], 40000);
    for (policy, is_answered) in [(Policy::Strict, false), (Policy::Loopback, true)] {
        let mut out = [0; DATAGRAM_MAX];
        let answer = server(policy).answer(Side::Primary, from, datagram.as_slice(), &mut out);
        assert!(rt; (answer != Answer::Drop { fate: Fate::Source }) == is_answered);
    }
    Ok(())
}

#[test]
fn a_step_has_what_was_answered(rt: HostRuntime) -> Result<(), Fail> {
    let datagram = hex::decode(rt.alloc(), SOLICITATION)?;
    let mut server = server(Policy::Strict);
    let mut out = [0; DATAGRAM_MAX];
    let answer = server.answer(Side::Primary, CLIENT, datagram.as_slice(), &mut out);
    let mut step = Step::new();
    let done = server.on_datagram(
        Millis(0),
        Side::Primary,
        CLIENT,
        datagram.as_slice(),
        &mut step,
    );
    assert!(rt; done.is_ok());
    assert!(rt; step.count() == 1);
    let (side, to, bytes) = step.send(0);
    let sent = Answer::Send {
        fate: step.fate(),
        side,
        to,
        len: bytes.len(),
    };
    assert!(rt; sent == answer);
    assert!(rt; out.starts_with(bytes));
    server.on_tick(Millis(0), &mut step);
    assert!(rt; step.fate() == Fate::Idle);
    assert!(rt; step.count() == 0);
    Ok(())
}
