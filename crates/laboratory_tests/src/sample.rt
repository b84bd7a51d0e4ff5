//! The nodes of the tests: one of each kind, and a second NAT.
use nat_kinds::NatKind;
use std::alloc::Global;
use std::test::Fail;
use td_base::{Ep, Ip4, Ip6};
use topology::{
    ClientNode, Name, NatNode, NativeNode, RefreshRange, RelayNode, ServerNode, Topology,
};

const SERVER_NODE: ServerNode = ServerNode {
    name: Name {
        len: 2,
        bytes: [b's', b'1', 0, 0, 0, 0, 0, 0, 0, 0, 0, 0, 0, 0, 0, 0],
    },
    primary: Ip4([192, 0, 2, 1]),
    secondary: Ip4([192, 0, 2, 2]),
};

const NAT_NODE: NatNode = NatNode {
    name: Name {
        len: 2,
        bytes: [b'n', b'1', 0, 0, 0, 0, 0, 0, 0, 0, 0, 0, 0, 0, 0, 0],
    },
    kind: NatKind::Port,
    external: Ip4([198, 51, 100, 1]),
    idle: 60_000,
};

const OTHER_NAT: NatNode = NatNode {
    name: Name {
        len: 2,
        bytes: [b'n', b'2', 0, 0, 0, 0, 0, 0, 0, 0, 0, 0, 0, 0, 0, 0],
    },
    kind: NatKind::Cone,
    external: Ip4([198, 51, 100, 2]),
    idle: 60_000,
};

const CLIENT_NODE: ClientNode = ClientNode {
    name: Name {
        len: 1,
        bytes: [b'a', 0, 0, 0, 0, 0, 0, 0, 0, 0, 0, 0, 0, 0, 0, 0],
    },
    nat: 1,
    inside: Ep {
        ip: Ip4([10, 0, 0, 2]),
        port: 4000,
    },
    server: 0,
    refresh: RefreshRange {
        low_ms: 30_000,
        high_ms: 30_000,
    },
    random: false,
    cone_try: true,
};

const RELAY_NODE: RelayNode = RelayNode {
    name: Name {
        len: 2,
        bytes: [b'r', b'1', 0, 0, 0, 0, 0, 0, 0, 0, 0, 0, 0, 0, 0, 0],
    },
    at: Ep {
        ip: Ip4([203, 0, 113, 9]),
        port: 3545,
    },
    six: Ip6([0x20, 1, 0xd, 0xb8, 0, 0, 0, 0, 0, 0, 0, 0, 0, 0, 0, 9]),
};

const NATIVE_NODE: NativeNode = NativeNode {
    name: Name {
        len: 2,
        bytes: [b'h', b'1', 0, 0, 0, 0, 0, 0, 0, 0, 0, 0, 0, 0, 0, 0],
    },
    six: Ip6([0x20, 1, 0xd, 0xb8, 0, 0, 0, 0, 0, 0, 0, 0, 0, 0, 0, 1]),
    relay: 4,
};

/// The server s1, the NATs n1 and n2, the client a behind n1, the relay r1, the native host h1.
pub fn nodes(alloc: Global) -> Result<Topology, Fail> {
    let mut t = Topology::new(alloc);
    t.add_server(SERVER_NODE)?;
    t.add_nat(NAT_NODE)?;
    t.add_nat(OTHER_NAT)?;
    t.add_client(CLIENT_NODE)?;
    t.add_relay(RELAY_NODE)?;
    t.add_native(NATIVE_NODE)?;
    Ok(t)
}
