//! `serve` over two sockets of this machine.
use crate::vectors::{ANSWER_LEN, ROOM, SOLICITATION, words_of};
use std::net::UdpSocket;
use std::test::Fail;
use std::time::Duration;
use td_base::{Ip4, Millis};
use td_outside::{Link, MemSink, MemSource, TestClock, UdpPair};
use teredo_app::run;

#[test]
fn a_socket_is_answered(rt: HostRuntime) -> Result<(), Fail> {
    let mut link = UdpPair::new(&rt);
    // What is sent before `run` waits at the open link, which `run` then opens again.
    let opened = link.open(Ip4([127, 0, 0, 1]), Ip4([127, 0, 0, 2]));
    assert!(rt; opened == Ok(()));
    let client = UdpSocket::bind(&rt, "127.0.0.3:0")?;
    client.set_read_timeout(Some(Duration::from_secs(5)))?;
    client.send_to(&SOLICITATION, "127.0.0.1:3544")?;
    let words = words_of(rt.alloc(), &["serve", "127.0.0.1", "127.0.0.2", "1", "50"])?;
    let mut source = MemSource::new(rt.alloc(), "", b"", &[])?;
    let mut sink = MemSink::new(rt.alloc(), ROOM, &[])?;
    let mut clock = TestClock::new([Millis(0); 4]);
    let status = run(
        rt.alloc(),
        &words,
        &mut source,
        &mut sink,
        &mut link,
        &mut clock,
    );
    let mut answer = [0; 1500];
    let (len, from) = client.recv_from(&mut answer)?;
    assert!(rt; (status, len, from.port()) == (0, ANSWER_LEN, 3544));
    assert!(rt; sink.as_slice() == b"served 1 sent 1 failed 0 six 0 dropped 0\n".as_slice());
    Ok(())
}
