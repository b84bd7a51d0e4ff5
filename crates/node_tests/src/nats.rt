//! Each kind once: who is let in at which moment, and from which ports datagrams leave.

use nat_kinds::{Nat, NatKind, NatRefusal};
use std::alloc::Global;
use td_base::{Ep, Ip4, Millis};

const EXTERNAL: Ip4 = Ip4([198, 51, 100, 1]);

fn endpoint(a: u8, b: u8, c: u8, d: u8, port: u16) -> Ep {
    Ep {
        ip: Ip4([a, b, c, d]),
        port,
    }
}

/// What a NAT of a kind does with the same datagrams.
#[derive(Clone, Copy, Debug, PartialEq, Eq)]
struct Seen {
    first_port: u16,
    from_asked: bool,
    from_asked_address: bool,
    from_stranger: bool,
    second_port: u16,
    from_asked_when_idle: bool,
}

fn play(alloc: Global, kind: NatKind) -> Result<Seen, NatRefusal> {
    let inside = endpoint(10, 0, 0, 2, 4000);
    let asked = endpoint(192, 0, 2, 1, 3544);
    let same_address = endpoint(192, 0, 2, 1, 9);
    let stranger = endpoint(192, 0, 2, 2, 3544);
    let mut nat = Nat::new(alloc, kind, EXTERNAL, 60_000);
    let first_port = nat.outward(Millis(0), inside, asked)?.port;
    let from_asked = nat.inward(Millis(1), asked, 1024) == Some(inside);
    let from_asked_address = nat.inward(Millis(1), same_address, 1024) == Some(inside);
    let from_stranger = nat.inward(Millis(1), stranger, 1024) == Some(inside);
    let second_port = nat.outward(Millis(2), inside, stranger)?.port;
    let from_asked_when_idle = nat.inward(Millis(60_000), asked, 1024) == Some(inside);
    Ok(Seen {
        first_port,
        from_asked,
        from_asked_address,
        from_stranger,
        second_port,
        from_asked_when_idle,
    })
}

#[test]
fn the_four_kinds(rt: HostRuntime) {
    let rows = [
        (NatKind::Cone, [true, true, true], 1024, true),
        (NatKind::Restricted, [true, true, false], 1024, false),
        (NatKind::Port, [true, false, false], 1024, false),
        (NatKind::Symmetric, [true, false, false], 1025, false),
    ];
    for (kind, [from_asked, from_asked_address, from_stranger], second_port, idle) in rows {
        let seen = Seen {
            first_port: 1024,
            from_asked,
            from_asked_address,
            from_stranger,
            second_port,
            from_asked_when_idle: idle,
        };
        assert!(rt; play(rt.alloc(), kind) == Ok(seen));
    }
}

#[test]
fn refusals_and_what_is_dropped(rt: HostRuntime) {
    let inside = endpoint(10, 0, 0, 2, 4000);
    let other = endpoint(10, 0, 0, 3, 4000);
    let server = endpoint(192, 0, 2, 1, 3544);
    let own = endpoint(198, 51, 100, 1, 1);
    let mut nat = Nat::new(rt.alloc(), NatKind::Port, EXTERNAL, 60_000);
    assert!(rt; nat.outward(Millis(0), inside, own) == Err(NatRefusal::Hairpin));
    assert!(rt; nat.outward(Millis(0), inside, server).is_ok());
    assert!(rt; nat.outward(Millis(0), other, server).is_ok());
    assert!(rt; nat.inward(Millis(1), server, 1025) == Some(other));
    nat.forget(inside);
    assert!(rt; nat.inward(Millis(1), server, 1024) == None);
    assert!(rt; nat.inward(Millis(1), server, 1025) == Some(other));
    nat.restart();
    assert!(rt; nat.inward(Millis(1), server, 1025) == None);
}

#[test]
fn ports_run_out(rt: HostRuntime) {
    let inside = endpoint(10, 0, 0, 2, 4000);
    let mut nat = Nat::new(rt.alloc(), NatKind::Symmetric, EXTERNAL, 60_000);
    for i in 0..4096 {
        let sent = nat.outward(Millis(0), inside, endpoint(192, 0, 2, 1, 1 + i));
        assert!(rt; sent == Ok(endpoint(198, 51, 100, 1, 1024 + i)));
    }
    let one_more = endpoint(192, 0, 2, 1, 4097);
    let again = endpoint(192, 0, 2, 1, 7);
    assert!(rt; nat.outward(Millis(59_999), inside, one_more) == Err(NatRefusal::Full));
    assert!(rt; nat.outward(Millis(59_999), inside, again) == Ok(endpoint(198, 51, 100, 1, 1030)));
    assert!(rt;
        nat.outward(Millis(60_000), inside, one_more) == Ok(endpoint(198, 51, 100, 1, 1024))
    );
}
