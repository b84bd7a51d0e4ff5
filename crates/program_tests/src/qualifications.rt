//! `qualify` at a link in memory.
use crate::vectors::{ROOM, words_of};
use std::alloc::Global;
use std::test::Fail;
use td_base::{Ep, Ip4, Millis, NoMemory, Octets, Side};
use td_outside::{MemArrival, MemLink, MemSink, MemSource, TestClock};
use teredo_app::run;

/// A solicitation with the cone bit, from 198.51.100.7:40000: its nonce is the first two words of seed 0's stream.
const CONE_SOLICITATION: [u8; 61] = [
    0x00, 0x01, 0x00, 0x00, 0xad, 0xe0, 0xb8, 0x76, 0x90, 0x3d, 0xf1, 0xa0, 0x00, 0x60, 0x00, 0x00,
    0x00, 0x00, 0x08, 0x3a, 0xff, 0xfe, 0x80, 0x00, 0x00, 0x00, 0x00, 0x00, 0x00, 0x80, 0x00, 0x63,
    0xbf, 0x39, 0xcc, 0x9b, 0xf8, 0xff, 0x02, 0x00, 0x00, 0x00, 0x00, 0x00, 0x00, 0x00, 0x00, 0x00,
    0x00, 0x00, 0x00, 0x00, 0x02, 0x85, 0x00, 0xc3, 0xb2, 0x00, 0x00, 0x00, 0x00,
];

/// Its answer from the server at 192.0.2.1 and 192.0.2.2.
const CONE_ANSWER: [u8; 117] = [
    0x00, 0x01, 0x00, 0x00, 0xad, 0xe0, 0xb8, 0x76, 0x90, 0x3d, 0xf1, 0xa0, 0x00, 0x00, 0x00, 0x63,
    0xbf, 0x39, 0xcc, 0x9b, 0xf8, 0x60, 0x00, 0x00, 0x00, 0x00, 0x38, 0x3a, 0xff, 0xfe, 0x80, 0x00,
    0x00, 0x00, 0x00, 0x00, 0x00, 0x80, 0x00, 0xf2, 0x27, 0x3f, 0xff, 0xfd, 0xfe, 0xfe, 0x80, 0x00,
    0x00, 0x00, 0x00, 0x00, 0x00, 0x80, 0x00, 0x63, 0xbf, 0x39, 0xcc, 0x9b, 0xf8, 0x86, 0x00, 0xe3,
    0x97, 0x00, 0x00, 0x00, 0x00, 0x00, 0x00, 0x00, 0x00, 0x00, 0x00, 0x00, 0x00, 0x03, 0x04, 0x40,
    0x40, 0xff, 0xff, 0xff, 0xff, 0xff, 0xff, 0xff, 0xff, 0x00, 0x00, 0x00, 0x00, 0x20, 0x01, 0x00,
    0x00, 0xc0, 0x00, 0x02, 0x01, 0x00, 0x00, 0x00, 0x00, 0x00, 0x00, 0x00, 0x00, 0x05, 0x01, 0x00,
    0x00, 0x00, 0x00, 0x05, 0x00,
];

const SERVER: Ep = Ep {
    ip: Ip4([192, 0, 2, 1]),
    port: 3544,
};

const OTHER: Ep = Ep {
    ip: Ip4([192, 0, 2, 2]),
    port: 3544,
};

// What came of a run with so many turns: the status, the line, and the link.
fn qualified(
    alloc: Global,
    turns: &str,
    arrivals: Vec<MemArrival>,
    mut clock: TestClock,
) -> Result<(u8, MemSink, MemLink), NoMemory> {
    let words = words_of(
        alloc,
        &[
            "qualify",
            "198.51.100.7",
            "192.0.2.1",
            "192.0.2.2",
            "0",
            turns,
        ],
    )?;
    let mut link = MemLink::new(alloc, arrivals, 8, &[], &[])?;
    let mut source = MemSource::new(alloc, "", b"", &[])?;
    let mut sink = MemSink::new(alloc, ROOM, &[])?;
    let status = run(alloc, &words, &mut source, &mut sink, &mut link, &mut clock);
    Ok((status, sink, link))
}

#[test]
fn a_cone_answer_gives_an_address(rt: HostRuntime) -> Result<(), Fail> {
    let mut arrivals = Vec::new(rt.alloc());
    arrivals.push(MemArrival::Got {
        side: Side::Secondary,
        from: OTHER,
        bytes: Octets::new(rt.alloc(), &CONE_ANSWER)?,
    })?;
    let clock = TestClock::new([Millis(0); 4]);
    let (status, sink, link) = qualified(rt.alloc(), "5", arrivals, clock)?;
    assert!(rt; status == 0);
    assert!(rt;
        sink.as_slice()
            == b"qualified 2001:0:c000:201:8000:63bf:39cc:9bf8 sent 1 failed 0\n".as_slice()
    );
    assert!(rt; link.attempts().len() == 1);
    for attempt in link.attempts() {
        assert!(rt; attempt.to() == SERVER);
        assert!(rt; attempt.bytes() == CONE_SOLICITATION.as_slice());
    }
    Ok(())
}

#[test]
fn no_answer_leaves_it_undecided(rt: HostRuntime) -> Result<(), Fail> {
    let clock = TestClock::new([Millis(0), Millis(4000), Millis(8000), Millis(12000)]);
    let (status, sink, link) = qualified(rt.alloc(), "4", Vec::new(rt.alloc()), clock)?;
    assert!(rt; status == 9);
    assert!(rt; sink.as_slice() == b"undecided sent 4 failed 0\n".as_slice());
    assert!(rt; link.attempts().len() == 4);
    Ok(())
}
