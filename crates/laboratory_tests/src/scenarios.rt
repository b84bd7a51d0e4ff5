//! A text that is a scenario, with a node of each kind.
use events::Event;
use scenario::read;
use std::alloc::Global;
use std::test::Fail;
use td_base::Ip4;

/// A scenario with a node of each kind.
const EACH_KIND: &str = "seed = 7
events = [\"stranger 198.51.100.7:40000 192.0.2.1:3544 00fF\", \"host a h1 01\"]
[[server]]
name = \"s1\"
primary = \"192.0.2.1\"
secondary = \"192.0.2.2\"
[[nat]]
name = \"n1\"
kind = \"port\"
external = \"198.51.100.1\"
idle = 60000
[[client]]
name = \"a\"
nat = \"n1\"
inside = \"10.0.0.2:4000\"
server = \"s1\"
flags = \"zero\"
[[client]]
name = \"b\"
nat = \"n1\"
inside = \"10.0.0.3:4000\"
server = \"s1\"
refresh = [1000, 30000]
flags = \"random\"
cone_try = false
[[relay]]
name = \"r1\"
at = \"203.0.113.9:3545\"
six = \"2001:db8::9\"
[[native]]
name = \"h1\"
six = \"2001:db8::1\"
relay = \"r1\"
";

#[test]
fn reads_each_kind_of_node(rt: HostRuntime) -> Result<(), Fail> {
    let scenario = read(rt.alloc(), EACH_KIND.as_bytes())?;
    assert!(rt; scenario.seed == 7);
    let ([server], [nat], [a, b]) = (
        scenario.topology.servers(),
        scenario.topology.nats(),
        scenario.topology.clients(),
    ) else {
        return Err(Fail::new("other servers, NATs or clients"));
    };
    assert!(rt; nat.name.as_slice() == b"n1".as_slice());
    assert!(rt; server.secondary == Ip4([192, 0, 2, 2]) && nat.external == Ip4([198, 51, 100, 1]));
    let (of_a, of_b) = (a.refresh, b.refresh);
    assert!(rt; (a.nat, a.server, of_a.low_ms, of_a.high_ms) == (1, 0, 22_500, 30_000));
    assert!(rt; (b.inside.port, of_b.low_ms, of_b.high_ms) == (4_000, 1_000, 30_000));
    assert!(rt; (a.random, a.cone_try, b.random, b.cone_try) == (false, true, true, false));
    let ([relay], [native]) = (scenario.topology.relays(), scenario.topology.natives()) else {
        return Err(Fail::new("other relays or native hosts"));
    };
    assert!(rt;
        (
            relay.at.port,
            relay.six.0[15],
            native.six.0[15],
            native.relay
        ) == (3_545, 9, 1, 4)
    );
    let [
        Event::Stranger { src, dst, bytes },
        Event::Host { node, to: _, body },
    ] = scenario.events.as_slice()
    else {
        return Err(Fail::new("other events"));
    };
    assert!(rt; (src.port, dst.port, *node) == (40_000, 3_544, 2));
    assert!(rt; (bytes.as_slice(), body.as_slice()) == ([0, 255].as_slice(), [1].as_slice()));
    Ok(())
}
