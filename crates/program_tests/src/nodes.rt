//! The nodes of the tests: one of each kind.
ghost use Rattle.std.specs.Prelude.{◌≡◌};

use nat_kinds::NatKind;
use std::alloc::Global;
use std::test::Fail;
use td_base::{Ep, Ip4, Ip6};
use topology::{
    ClientNode, Name, NatNode, NativeNode, RefreshRange, RelayNode, ServerNode, Topology,
};

pub const SERVER: u16 = 0;

pub const NAT: u16 = 1;

pub const CLIENT: u16 = 2;

pub const RELAY: u16 = 3;

pub const NATIVE: u16 = 4;

const PRIMARY: Ip4 = Ip4([192, 0, 2, 1]);

const SECONDARY: Ip4 = Ip4([192, 0, 2, 2]);

const EXTERNAL: Ip4 = Ip4([198, 51, 100, 1]);

pub const SERVER_AT: Ep = Ep {
    ip: PRIMARY,
    port: 3544,
};

pub const MAPPED: Ep = Ep {
    ip: EXTERNAL,
    port: 1024,
};

pub const RELAY_AT: Ep = Ep {
    ip: Ip4([203, 0, 113, 9]),
    port: 3545,
};

const SERVER_NODE: ServerNode = ServerNode {
    name: Name {
        len: 2,
        bytes: [b's', b'1', 0, 0, 0, 0, 0, 0, 0, 0, 0, 0, 0, 0, 0, 0],
    },
    primary: PRIMARY,
    secondary: SECONDARY,
};

const LONG_NODE: ServerNode = ServerNode {
    name: Name {
        len: 16,
        bytes: *b"abcdefghijklmnop",
    },
    primary: PRIMARY,
    secondary: SECONDARY,
};

const NAT_NODE: NatNode = NatNode {
    name: Name {
        len: 2,
        bytes: [b'n', b'1', 0, 0, 0, 0, 0, 0, 0, 0, 0, 0, 0, 0, 0, 0],
    },
    kind: NatKind::Port,
    external: EXTERNAL,
    idle: 60_000,
};

const CLIENT_NODE: ClientNode = ClientNode {
    name: Name {
        len: 1,
        bytes: [b'a', 0, 0, 0, 0, 0, 0, 0, 0, 0, 0, 0, 0, 0, 0, 0],
    },
    nat: NAT,
    inside: Ep {
        ip: Ip4([10, 0, 0, 2]),
        port: 4000,
    },
    server: SERVER,
    refresh: RefreshRange {
        low_ms: 30_000,
        high_ms: 30_000,
    },
    random: false,
    cone_try: true,
};

const RELAY_NODE: RelayNode = RelayNode {
    name: Name {
        len: 2,
        bytes: [b'r', b'1', 0, 0, 0, 0, 0, 0, 0, 0, 0, 0, 0, 0, 0, 0],
    },
    at: RELAY_AT,
    six: Ip6([0x20, 1, 0xd, 0xb8, 0, 0, 0, 0, 0, 0, 0, 0, 0, 0, 0, 9]),
};

const NATIVE_NODE: NativeNode = NativeNode {
    name: Name {
        len: 2,
        bytes: [b'h', b'1', 0, 0, 0, 0, 0, 0, 0, 0, 0, 0, 0, 0, 0, 0],
    },
    six: Ip6([0x20, 1, 0xd, 0xb8, 0, 0, 0, 0, 0, 0, 0, 0, 0, 0, 0, 1]),
    relay: RELAY,
};

/// A server, a NAT, a client behind it, a relay, a native host.
pub fn one_of_each(alloc: Global) -> Result<Topology, Fail> {
    let mut t = Topology::new(alloc);
    t.add_server(SERVER_NODE)?;
    t.add_nat(NAT_NODE)?;
    t.add_client(CLIENT_NODE)?;
    t.add_relay(RELAY_NODE)?;
    t.add_native(NATIVE_NODE)?;
    Ok(t)
}

/// A topology with one server.
pub fn one_server(alloc: Global) -> Result<Topology, Fail> {
    let mut t = Topology::new(alloc);
    t.add_server(SERVER_NODE)?;
    Ok(t)
}

/// A topology with one server, whose name is as long as a name can be.
pub fn one_long_server(alloc: Global) -> Result<Topology, Fail> {
    let mut t = Topology::new(alloc);
    t.add_server(LONG_NODE)?;
    Ok(t)
}
