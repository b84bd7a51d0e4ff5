//! Files, output, sockets and the clock of the system.
use crate::connected::Connected;
use std::net::{IpAddr, Ipv4Addr, SocketAddr, SocketAddrV4, UdpSocket};
use std::test::Fail;
use std::time::Duration;
use std::{env, fs};
use td_base::{DATAGRAM_MAX, Ep, Ip4, Millis, Side, TEREDO_PORT};
use td_outside::{
    Arrival, Clock, Failed, FileSource, Link, Sink, Source, StdSink, SystemClock, UdpPair,
};

#[test]
fn a_file_is_read_to_its_end(rt: HostRuntime) -> Result<(), Fail> {
    let folder = env::temp_dir(&rt)?;
    let file = folder.join(rt.alloc(), "td_outside_three_bytes")?;
    fs::write(&rt, &file, "abc")?;
    let mut source = FileSource::new(&rt);
    let mut buf = [0u8; 8];
    let name = file.to_str().unwrap_or("");
    assert!(rt; source.open(name) == Ok(()));
    fs::remove_file(&rt, &file)?;
    for want in [Ok(3), Ok(0)] {
        assert!(rt; source.read(&mut buf) == want);
    }
    assert!(rt; source.open(name) == Err(Failed));
    assert!(rt; source.open(".") == Ok(()));
    assert!(rt; source.read(&mut buf) == Err(Failed));
    Ok(())
}

#[test]
fn a_piece_is_written_through(rt: HostRuntime) -> Result<(), Fail> {
    let mut full = [0u8; 2];
    let mut sink = StdSink::new(full.as_mut_slice());
    for want in [Ok(2), Err(Failed)] {
        assert!(rt; sink.write(b"abc") == want);
    }
    assert!(rt; sink.write(b"") == Ok(0));
    Ok(())
}

#[test]
fn the_system_clock_goes_on(rt: HostRuntime) -> Result<(), Fail> {
    let mut clock = SystemClock::new(&rt);
    assert!(rt; clock.now() == Millis(0));
    std::thread::sleep(&rt, Duration::from_millis(30));
    assert!(rt; clock.now().0 >= 30);
    Ok(())
}

// The first side that a link answers from within a second, with the datagram's length.
fn next<L: Link>(link: &mut L) -> Option<(Side, usize)> {
    let mut buf = [0; DATAGRAM_MAX];
    for _ in 0..50u64 {
        if let Ok(Arrival::Got { side, len, .. }) = link.recv(&mut buf) {
            return Some((side, len));
        }
    }
    None
}

#[test]
fn the_sides_of_a_pair_take_turns(rt: HostRuntime) -> Result<(), Fail> {
    let mut link = UdpPair::new(&rt);
    let (primary, secondary) = (Ip4([127, 41, 0, 1]), Ip4([127, 41, 0, 2]));
    assert!(rt; link.open(primary, secondary) == Ok(()));
    let peer = UdpSocket::bind(&rt, "127.41.0.3:0")?;
    for _ in 0..3u64 {
        peer.send_to(b"one", "127.41.0.1:3544")?;
    }
    peer.send_to(&[4; 1401], "127.41.0.2:3544")?;
    // Opened again, it still has what came.
    assert!(rt; link.open(primary, secondary) == Ok(()));
    let (one, long) = ((Side::Primary, 3), (Side::Secondary, 1400));
    for want in [Some(one), Some(long), Some(one), Some(one), None] {
        assert!(rt; next(&mut link) == want);
    }
    Ok(())
}

#[test]
fn the_addresses_of_a_pair_may_change_places(rt: HostRuntime) -> Result<(), Fail> {
    let mut link = UdpPair::new(&rt);
    let (one, other) = (Ip4([127, 43, 0, 1]), Ip4([127, 43, 0, 2]));
    assert!(rt; link.open(one, other) == Ok(()));
    assert!(rt; link.open(other, one) == Ok(()));
    let peer = UdpSocket::bind(&rt, "127.43.0.3:0")?;
    peer.send_to(b"ab", "127.43.0.2:3544")?;
    assert!(rt; next(&mut link) == Some((Side::Primary, 2)));
    Ok(())
}

#[test]
fn a_pair_sends_from_the_side_that_was_named(rt: HostRuntime) -> Result<(), Fail> {
    let mut link = UdpPair::new(&rt);
    assert!(rt; link.open(Ip4([127, 42, 0, 1]), Ip4([127, 42, 0, 2])) == Ok(()));
    let peer = UdpSocket::bind(&rt, "127.42.0.3:0")?;
    peer.set_read_timeout(Some(Duration::from_secs(5)))?;
    let port = peer.local_addr()?.port();
    let ip = Ip4([127, 42, 0, 3]);
    assert!(rt; link.send(Side::Secondary, Ep { ip, port }, b"back") == Ok(()));
    let mut got = [0; 8];
    let (len, from) = peer.recv_from(&mut got)?;
    assert!(rt; (len, from.port()) == (4, TEREDO_PORT));
    assert!(rt; from.ip() == IpAddr::V4(Ipv4Addr::new(127, 42, 0, 2)));
    Ok(())
}

#[test]
fn a_client_sends_from_its_one_socket(rt: HostRuntime) -> Result<(), Fail> {
    let mut link = UdpPair::new(&rt);
    let inside = Ip4([127, 0, 0, 3]);
    let unknown = Ep {
        ip: inside,
        port: 0,
    };
    let at = link.open_client(inside).unwrap_or(unknown);
    assert!(rt; at.ip == inside);
    let peer = UdpSocket::bind(&rt, "127.44.0.3:0")?;
    peer.set_read_timeout(Some(Duration::from_secs(5)))?;
    let to = Ep {
        ip: Ip4([127, 44, 0, 3]),
        port: peer.local_addr()?.port(),
    };
    let mut got = [0; 8];
    for side in [Side::Primary, Side::Secondary] {
        assert!(rt; link.send(side, to, b"one") == Ok(()));
        let (len, from) = peer.recv_from(&mut got)?;
        assert!(rt; (len, from.port()) == (3, at.port));
        assert!(rt; from.ip() == IpAddr::V4(Ipv4Addr::new(127, 0, 0, 3)));
        peer.send_to(b"back", from)?;
        assert!(rt; next(&mut link) == Some((Side::Primary, 4)));
    }
    assert!(rt; next(&mut link) == None);
    Ok(())
}

#[test]
fn an_address_of_another_machine_is_refused(rt: HostRuntime) -> Result<(), Fail> {
    let mut link = UdpPair::new(&rt);
    assert!(rt; link.open_client(Ip4([192, 0, 2, 1])) == Err(Failed));
    let mut buf = [0; DATAGRAM_MAX];
    assert!(rt; link.recv(&mut buf) == Err(Failed));
    Ok(())
}

#[test]
fn a_socket_that_fails_is_no_idle_one(rt: HostRuntime) -> Result<(), Fail> {
    let nobody = Ep {
        ip: Ip4([127, 46, 0, 9]),
        port: 9,
    };
    let net = Connected {
        rt: &rt,
        to: SocketAddr::V4(SocketAddrV4::new(Ipv4Addr::new(127, 46, 0, 9), 9)),
    };
    let mut link = UdpPair::new(&net);
    let mut buf = [0; DATAGRAM_MAX];
    assert!(rt; link.open(Ip4([127, 46, 0, 1]), Ip4([127, 46, 0, 2])) == Ok(()));
    for side in [Side::Primary, Side::Secondary] {
        assert!(rt; link.send(side, nobody, b"x") == Ok(()));
        assert!(rt; link.recv(&mut buf) == Err(Failed));
        assert!(rt; link.recv(&mut buf) == Ok(Arrival::Idle));
    }
    assert!(rt; link.open_client(Ip4([127, 46, 0, 1])).is_ok());
    assert!(rt; link.send(Side::Primary, nobody, b"x") == Ok(()));
    assert!(rt; link.recv(&mut buf) == Err(Failed));
    Ok(())
}
