//! The places of nodes among those of their kind.
ghost use Rattle.std.specs.Prelude.{◌≡◌, ◌<◌, position, length, IfSome};
ghost use Rattle.topology.specs.declared.node.Node.TheVariants.{Server as server, Nat as nat, Client as client, Relay as relay, Native as native};
ghost use Rattle.topology.specs.Topology.{is_at, is_behind, is_native};

use crate::client_node::ClientNode;
use crate::nat_node::NatNode;
use crate::native_node::NativeNode;
use crate::relay_node::RelayNode;
use crate::server_node::ServerNode;
use td_base::{Ep, Ip6};

/// Whether datagrams to an endpoint come to the server.
fn is_at_server(row: &ServerNode, dst: Ep) -> bool
    ensures { result ≡ is_at dst (server row.now) }
{
    dst == Ep::of_server(row.primary) || dst == Ep::of_server(row.secondary)
}

/// The first server that datagrams to an endpoint come to.
pub fn server_at(rows: &[ServerNode], dst: Ep) -> Option<usize>
    ensures found { result ≡ position (λ row. is_at dst (server row)) rows.now }
    ensures within { IfSome result (λ place. place < length rows.now) }
{
    rows.iter().position(|row| is_at_server(row, dst))
}

/// The first NAT that they come to.
pub fn nat_at(rows: &[NatNode], dst: Ep) -> Option<usize>
    ensures found { result ≡ position (λ row. is_at dst (nat row)) rows.now }
    ensures within { IfSome result (λ place. place < length rows.now) }
{
    rows.iter().position(|row| dst.ip == row.external)
}

/// The first relay that they come to.
pub fn relay_at(rows: &[RelayNode], dst: Ep) -> Option<usize>
    ensures found { result ≡ position (λ row. is_at dst (relay row)) rows.now }
    ensures within { IfSome result (λ place. place < length rows.now) }
{
    rows.iter().position(|row| dst == row.at)
}

/// The first client behind a NAT that has this inside endpoint.
pub fn client_behind(rows: &[ClientNode], nat: u16, inside: Ep) -> Option<usize>
    ensures found { result ≡ position (λ row. is_behind nat inside (client row)) rows.now }
    ensures within { IfSome result (λ place. place < length rows.now) }
{
    rows.iter()
        .position(|row| row.nat == nat && inside == row.inside)
}

/// The first native host with this address.
pub fn native_with(rows: &[NativeNode], ip: Ip6) -> Option<usize>
    ensures found { result ≡ position (λ row. is_native ip (native row)) rows.now }
    ensures within { IfSome result (λ place. place < length rows.now) }
{
    rows.iter().position(|row| ip == row.six)
}
