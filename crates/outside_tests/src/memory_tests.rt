//! The forms in memory.
use std::alloc::Global;
use std::test::Fail;
use td_base::{DATAGRAM_MAX, Ep, Ip4, Millis, NoMemory, Octets, Side};
use td_outside::{
    Arrival, Clock, Failed, Link, MemArrival, MemLink, MemSink, MemSource, Sink, Source, TestClock,
};

#[test]
fn a_source_gives_what_its_name_stands_for(rt: HostRuntime) -> Result<(), Fail> {
    let mut source = MemSource::new(rt.alloc(), "a", b"xyz", &[1])?;
    let mut buf = [0u8; 2];
    assert!(rt; source.open("a") == Ok(()));
    for want in [Err(Failed), Ok(2), Ok(1), Ok(0)] {
        assert!(rt; source.read(&mut buf) == want);
    }
    assert!(rt; buf.as_slice() == b"zy".as_slice());
    Ok(())
}

#[test]
fn a_sink_takes_whole_pieces_up_to_its_room(rt: HostRuntime) -> Result<(), Fail> {
    let mut sink = MemSink::new(rt.alloc(), 4, &[1])?;
    for want in [Ok(3), Err(Failed), Err(Failed)] {
        assert!(rt; sink.write(b"abc") == want);
    }
    assert!(rt; sink.write(b"d") == Ok(1));
    assert!(rt; sink.as_slice() == b"abcd".as_slice());
    Ok(())
}

const PEER: Ep = Ep {
    ip: Ip4([198, 51, 100, 7]),
    port: 40000,
};

const LONG: Arrival = Arrival::Got {
    side: Side::Secondary,
    from: PEER,
    len: 1400,
};

// A link with two arrivals, an `Idle` and a datagram that is too long.
fn link_of_two(alloc: Global) -> Result<MemLink, NoMemory> {
    let mut arrivals = Vec::new(alloc);
    arrivals.push(MemArrival::Idle)?;
    arrivals.push(MemArrival::Got {
        side: Side::Secondary,
        from: PEER,
        bytes: Octets::new(alloc, &[7; 1401])?,
    })?;
    MemLink::new(alloc, arrivals, 1, &[1], &[1])
}

#[test]
fn a_link_gives_its_arrivals_and_keeps_its_attempts(rt: HostRuntime) -> Result<(), Fail> {
    let mut link = link_of_two(rt.alloc())?;
    let mut buf = [0; DATAGRAM_MAX];
    for want in [Ok(Arrival::Idle), Err(Failed), Ok(LONG), Ok(Arrival::Idle)] {
        assert!(rt; link.recv(&mut buf) == want);
    }
    for want in [Ok(()), Err(Failed)] {
        assert!(rt; link.send(Side::Primary, PEER, b"ab") == want);
    }
    assert!(rt; link.attempts().len() == 1);
    Ok(())
}

#[test]
fn a_link_of_a_client_has_one_side(rt: HostRuntime) -> Result<(), Fail> {
    let mut link = link_of_two(rt.alloc())?;
    let ip = Ip4([198, 51, 100, 9]);
    assert!(rt; link.open_client(ip) == Ok(Ep { ip, port: 40000 }));
    let mut buf = [0; DATAGRAM_MAX];
    let at_primary = Arrival::Got {
        side: Side::Primary,
        from: PEER,
        len: 1400,
    };
    for want in [Ok(Arrival::Idle), Err(Failed), Ok(at_primary)] {
        assert!(rt; link.recv(&mut buf) == want);
    }
    Ok(())
}

#[test]
fn a_clock_gives_its_last_moment_for_ever(rt: HostRuntime) -> Result<(), Fail> {
    let mut clock = TestClock::new([Millis(0), Millis(4000), Millis(4000), Millis(12000)]);
    for moment in [0, 4000, 4000, 12000, 12000, 12000] {
        assert!(rt; clock.now() == Millis(moment));
    }
    Ok(())
}
