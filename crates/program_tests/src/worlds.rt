//! Worlds that are played by hand.
use crate::nodes::one_of_each;
use events::Event;
use std::test::Fail;
use td_base::{Ep, Ip4, Octets};
use td_chain::Chains;
use td_nested::{Nested, NestedFault};
use topology::Topology;
use world::{WireEntry, World};

#[test]
fn what_a_stranger_sends_is_lent(rt: HostRuntime) -> Result<(), Fail> {
    let t = Topology::new(rt.alloc());
    let nats = Chains::alone(rt.alloc(), &t)?;
    let mut world = World::new(rt.alloc(), &t, nats, 1)?;
    let at = Ep {
        ip: Ip4([198, 51, 100, 7]),
        port: 40000,
    };
    let event = Event::Stranger {
        src: at,
        dst: at,
        bytes: Octets::new(rt.alloc(), b"abc")?,
    };
    assert!(rt; world.step(0, &event).is_ok());
    assert!(rt; world.entries() == 1);
    let sent = match world.entry(0) {
        Some(WireEntry::Udp { src, bytes, .. }) => src == at && bytes == b"abc".as_slice(),
        _ => false,
    };
    assert!(rt; sent && world.entry(1).is_none());
    Ok(())
}

#[test]
fn a_world_with_nats_behind_others(rt: HostRuntime) -> Result<(), Fail> {
    let t = Topology::new(rt.alloc());
    let Ok(mut nested) = Nested::new(rt.alloc(), &t, b"-", 1) else {
        return Err(Fail::from("no such world"));
    };
    assert!(rt; nested.step(0, &Event::Next).is_ok());
    assert!(rt; nested.entries() == 0);
    assert!(rt; Nested::new(rt.alloc(), &t, b"", 1).err() == Some(NestedFault::Chain));
    let all = one_of_each(rt.alloc())?;
    assert!(rt; Nested::new(rt.alloc(), &all, b"-", 1).err() == Some(NestedFault::Nodes));
    assert!(rt; Nested::new(rt.alloc(), &all, b"n1", 1).err() == Some(NestedFault::Chain));
    Ok(())
}
