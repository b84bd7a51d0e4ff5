//! The peers of a node at the moments at which something changes, and each refusal.
ghost use Rattle.std.specs.Prelude.{◌≡◌, ◌≤◌, ◌<◌, length};
ghost use Rattle.td_base.specs.declared.millis.TheConstants.{CLOCK_END_MS};

use peer_list::Peers;
use std::process::Abort;
use std::test::Fail;
use td_base::{Ep, Ip4, Ip6, Millis, NoMemory};
use teredo_node::{Fate, Step};

const FROM: Ep = Ep {
    ip: Ip4([192, 0, 2, 45]),
    port: 40000,
};

const ELSEWHERE: Ep = Ep {
    ip: Ip4([192, 0, 2, 45]),
    port: 9,
};

const PEER: Ip6 = Ip6([
    0x20, 1, 0, 0, 65, 54, 227, 120, 128, 0, 99, 191, 63, 255, 253, 210,
]);

fn address(number: u16) -> Ip6 {
    let [high, low] = number.to_be_bytes();
    Ip6([0x20, 1, 0xd, 0xb8, 0, 0, 0, 0, 0, 0, 0, 0, 0, 0, high, low])
}

/// Lists an address.
fn list(rt: &impl Abort, peers: &mut Peers, now: Millis, who: Ip6) -> Result<(), NoMemory>
    requires { peers.old.moment ≤ now.0 }
    ensures { peers.new.moment ≡ now.0 }
{
    assert!(rt; peers.has_room(now, who));
    peers.list(now, who)
}

/// Lets a packet of one byte wait.
fn wait(rt: &impl Abort, peers: &mut Peers, now: Millis, byte: u8) -> Result<(), NoMemory>
    requires { peers.old.moment ≤ now.0 }
    ensures { peers.new.moment ≡ now.0 }
{
    assert!(rt; peers.has_room(now, PEER));
    assert!(rt; !peers.is_full(now, PEER));
    peers.wait(now, PEER, &[byte])
}

/// Holds a packet of one byte that came from there.
fn hold(rt: &impl Abort, peers: &mut Peers, from: Ep, byte: u8) -> Result<(), NoMemory>
    requires { peers.old.moment ≡ 0 }
    ensures { peers.new.moment ≡ 0 }
{
    assert!(rt; peers.has_room(Millis(0), PEER));
    assert!(rt; !peers.holds_most(Millis(0), PEER));
    peers.hold(Millis(0), PEER, from, &[byte])
}

/// Tries the peer.
fn try_at(rt: &impl Abort, peers: &mut Peers, now: Millis)
    requires clock { peers.old.moment ≤ now.0 }
    requires early { now.0 < CLOCK_END_MS }
    ensures { peers.new.moment ≡ now.0 }
{
    assert!(rt; peers.is_listed(now, PEER));
    assert!(rt; !peers.is_barred(now, PEER));
    peers.tried(now, PEER, None);
}

#[test]
fn a_256th_peer_and_a_257th(rt: HostRuntime) -> Result<(), Fail> {
    let mut peers = Peers::new(rt.alloc());
    for number in 0..256 {
        list(&rt, &mut peers, Millis(7), address(number))?;
    }
    assert!(rt; !peers.has_room(Millis(300_006), address(256)));
    list(&rt, &mut peers, Millis(300_006), address(0))?;
    list(&rt, &mut peers, Millis(300_007), address(256))?;
    assert!(rt; peers.count(Millis(300_007)) == 2);
    Ok(())
}

#[test]
fn eight_packets_and_a_ninth(rt: HostRuntime) -> Result<(), Fail> {
    let mut peers = Peers::new(rt.alloc());
    for byte in 0..8 {
        wait(&rt, &mut peers, Millis(0), byte)?;
    }
    assert!(rt; peers.is_full(Millis(0), PEER));
    assert!(rt; peers.waiting(Millis(0)) == 8);
    let mut step = Step::new();
    step.reset(Fate::Rule1);
    assert!(rt; peers.is_listed(Millis(0), PEER));
    peers.hear(Millis(0), PEER, FROM, &mut step);
    assert!(rt; step.count() == 8);
    assert!(rt; step.send(0).2 == [0].as_slice());
    assert!(rt; peers.waiting(Millis(0)) == 0);
    Ok(())
}

#[test]
fn four_held_packets(rt: HostRuntime) -> Result<(), Fail> {
    let mut peers = Peers::new(rt.alloc());
    hold(&rt, &mut peers, FROM, 1)?;
    hold(&rt, &mut peers, ELSEWHERE, 2)?;
    hold(&rt, &mut peers, FROM, 3)?;
    hold(&rt, &mut peers, ELSEWHERE, 4)?;
    assert!(rt; peers.holds_most(Millis(0), PEER));
    assert!(rt; peers.waiting(Millis(299_999)) == 4);
    assert!(rt; peers.waiting(Millis(300_000)) == 0);
    assert!(rt; peers.due(Millis(0)) == None);
    let mut step = Step::new();
    step.reset(Fate::Rule2);
    assert!(rt; peers.is_listed(Millis(0), PEER));
    assert!(rt; peers.held_count(Millis(0), PEER) == 4);
    assert!(rt; peers.hand_late(Millis(0), PEER, FROM, &mut step) == 2);
    assert!(rt; step.late_count() == 2);
    assert!(rt; step.late(1) == [3].as_slice());
    peers.trust_and_hear(Millis(0), PEER, FROM, &mut step);
    assert!(rt; peers.waiting(Millis(0)) == 0);
    Ok(())
}

#[test]
fn late_ticks(rt: HostRuntime) -> Result<(), Fail> {
    let mut peers = Peers::new(rt.alloc());
    wait(&rt, &mut peers, Millis(0), 1)?;
    try_at(&rt, &mut peers, Millis(0));
    wait(&rt, &mut peers, Millis(1_999), 2)?;
    assert!(rt; peers.is_barred(Millis(1_999), PEER));
    assert!(rt; peers.due(Millis(301_500)) == Some((Millis(2_000), PEER)));
    assert!(rt; peers.due(Millis(301_998)) == Some((Millis(2_000), PEER)));
    assert!(rt; peers.due(Millis(301_999)) == None);
    Ok(())
}

#[test]
fn four_tries(rt: HostRuntime) -> Result<(), Fail> {
    let mut peers = Peers::new(rt.alloc());
    wait(&rt, &mut peers, Millis(0), 1)?;
    for turn in 0..4 {
        try_at(&rt, &mut peers, Millis(2_000 * turn));
    }
    assert!(rt; peers.is_spent(Millis(8_000), PEER));
    assert!(rt; peers.is_listed(Millis(8_000), PEER));
    assert!(rt; peers.give_up(Millis(8_000), PEER) == 1);
    wait(&rt, &mut peers, Millis(299_999), 2)?;
    assert!(rt; peers.is_barred(Millis(299_999), PEER));
    assert!(rt; !peers.is_barred(Millis(300_000), PEER));
    Ok(())
}

#[test]
fn trust_and_time(rt: HostRuntime) -> Result<(), Fail> {
    for (later, trusted) in [(299_999, true), (300_000, false)] {
        let mut peers = Peers::new(rt.alloc());
        list(&rt, &mut peers, Millis(1), PEER)?;
        assert!(rt; peers.is_listed(Millis(1), PEER));
        peers.trust(Millis(1), PEER, FROM);
        list(&rt, &mut peers, Millis(1 + later), PEER)?;
        assert!(rt; peers.is_trusted_at(Millis(1 + later), PEER, FROM) == trusted);
    }
    Ok(())
}
