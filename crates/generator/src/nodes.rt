//! The nodes of the generated scenario.
ghost use Rattle.std.specs.Prelude.{◌≡◌, ◌+◌, ◌*◌, ◌≤◌, ◌<◌, IfOk};
ghost use Rattle.generator.specs.GeneratedNodes.{lettered_name, documentation_ip6, external_ip, kind_numbered};
ghost use Rattle.generator.specs.GeneratedNodes.{generated_server, generated_nat, generated_client, generated_relay};
ghost use Rattle.generator.specs.GeneratedNodes.{generated_native, generated_nodes};

use nat_kinds::NatKind;
use std::alloc::Global;
use td_base::{Ep, Ip4, Ip6, NoMemory};
use topology::{
    ClientNode, Name, NatNode, NativeNode, REFRESH_HIGH_MS, REFRESH_LOW_MS, RefreshRange,
    RelayNode, ServerNode, Topology,
};

/// The numbers of the first NAT, the first client, the relay and the first native host, among all nodes.
pub const FIRST_NAT: u16 = 2;

pub const FIRST_CLIENT: u16 = 6;

pub const THE_RELAY: u16 = 14;

pub const FIRST_NATIVE: u16 = 15;

/// How long a mapping of a NAT lives, in milliseconds.
pub const MAPPING_IDLE_MS: u32 = 60_000;

/// The port of each client behind its NAT.
pub const INSIDE_PORT: u16 = 4000;

/// The name of a letter and a digit.
fn lettered_name(letter: u8, k: u8) -> Name
    requires { k < 10 }
    ensures { result ≡ lettered_name letter k }
{
    Name {
        len: 2,
        bytes: [letter, b'0' + k, 0, 0, 0, 0, 0, 0, 0, 0, 0, 0, 0, 0, 0, 0],
    }
}

/// 2001:db8::k
fn documentation_ip6(k: u8) -> Ip6
    ensures { result ≡ documentation_ip6 k }
{
    Ip6([0x20, 1, 0x0d, 0xb8, 0, 0, 0, 0, 0, 0, 0, 0, 0, 0, 0, k])
}

/// The address outside of NAT `k`.
pub(crate) fn external_ip(k: u8) -> Ip4
    requires { k < 4 }
    ensures { result ≡ external_ip k }
{
    Ip4([198, 51, 100, k + 1])
}

#[tactic(auto, unfolding(crate::specs::GeneratedNodes::generated_server))]
fn server(k: u8) -> ServerNode
    requires { k < 2 }
    ensures { result ≡ generated_server k }
{
    ServerNode {
        name: lettered_name(b's', k),
        primary: Ip4([192, 0, 2, 2 * k + 1]),
        secondary: Ip4([192, 0, 2, 2 * k + 2]),
    }
}

/// Of each kind one.
fn kind_numbered(k: u8) -> NatKind
    ensures { result ≡ kind_numbered k }
{
    match k {
        0 => NatKind::Cone,
        1 => NatKind::Restricted,
        2 => NatKind::Port,
        _ => NatKind::Symmetric,
    }
}

#[tactic(auto, unfolding(crate::specs::GeneratedNodes::generated_nat))]
fn nat(k: u8) -> NatNode
    requires { k < 4 }
    ensures { result ≡ generated_nat k }
{
    NatNode {
        name: lettered_name(b'n', k),
        kind: kind_numbered(k),
        external: external_ip(k),
        idle: MAPPING_IDLE_MS,
    }
}

#[tactic(auto, unfolding(crate::specs::GeneratedNodes::generated_client))]
fn client(k: u8) -> ClientNode
    requires { k < 8 }
    ensures { result ≡ generated_client k }
{
    ClientNode {
        name: lettered_name(b'c', k),
        nat: FIRST_NAT + u16::from(k % 4),
        inside: Ep {
            ip: Ip4([10, 0, 0, k + 2]),
            port: INSIDE_PORT,
        },
        server: u16::from(k % 2),
        refresh: RefreshRange {
            low_ms: REFRESH_LOW_MS,
            high_ms: REFRESH_HIGH_MS,
        },
        random: false,
        cone_try: true,
    }
}

#[tactic(auto, unfolding(crate::specs::GeneratedNodes::generated_relay))]
fn relay() -> RelayNode
    ensures { result ≡ generated_relay }
{
    RelayNode {
        name: lettered_name(b'r', 0),
        at: Ep {
            ip: Ip4([203, 0, 113, 9]),
            port: 3545,
        },
        six: documentation_ip6(9),
    }
}

#[tactic(auto, unfolding(crate::specs::GeneratedNodes::generated_native))]
fn native(k: u8) -> NativeNode
    requires { k < 2 }
    ensures { result ≡ generated_native k }
{
    NativeNode {
        name: lettered_name(b'h', k),
        six: documentation_ip6(k + 1),
        relay: THE_RELAY,
    }
}

/// The nodes.
pub(crate) fn generated_nodes(alloc: Global) -> Result<Topology, NoMemory>
    ensures { IfOk result (λ t. t ≡ generated_nodes) }
{
    let mut topology = Topology::new(alloc);
    for k in 0..2 {
        topology.add_server(server(k))?;
    }
    for k in 0..4 {
        topology.add_nat(nat(k))?;
    }
    for k in 0..8 {
        topology.add_client(client(k))?;
    }
    topology.add_relay(relay())?;
    for k in 0..2 {
        topology.add_native(native(k))?;
    }
    Ok(topology)
}
