//! A node of any kind.
ghost use Rattle.std.specs.Prelude.{◌≡◌};
ghost use Rattle.topology.specs.Topology.{is_at, is_behind, is_native, name_of};

use crate::client_node::ClientNode;
use crate::nat_node::NatNode;
use crate::native_node::NativeNode;
use crate::node_name::Name;
use crate::relay_node::RelayNode;
use crate::server_node::ServerNode;
use td_base::{Ep, Ip6};

/// A node of a scenario, with its row.
#[derive(Clone, Copy, Debug)]
pub enum Node {
    Server(ServerNode),
    Nat(NatNode),
    Client(ClientNode),
    Relay(RelayNode),
    Native(NativeNode),
}

impl Node {
    /// Its name.
    pub fn name(self) -> Name
        /// See `host_named`.
        ensures { result ≡ name_of self }
    {
        match self {
            Node::Server(row) => row.name,
            Node::Nat(row) => row.name,
            Node::Client(row) => row.name,
            Node::Relay(row) => row.name,
            Node::Native(row) => row.name,
        }
    }

    /// Whether datagrams to an endpoint come to it.
    pub fn is_at(self, dst: Ep) -> bool
        /// See `Topology::at`.
        ensures { result ≡ is_at dst self }
    {
        match self {
            Node::Server(row) => dst == Ep::of_server(row.primary)
                || dst == Ep::of_server(row.secondary),
            Node::Nat(row) => dst.ip == row.external,
            Node::Relay(row) => dst == row.at,
            Node::Client(_) => false,
            Node::Native(_) => false,
        }
    }

    /// Whether it is a client behind the NAT of that number, with this inside endpoint.
    pub fn is_behind(self, nat: u16, inside: Ep) -> bool
        /// See `Topology::at`.
        ensures { result ≡ is_behind nat inside self }
    {
        match self {
            Node::Client(row) => row.nat == nat && inside == row.inside,
            _ => false,
        }
    }

    /// Whether it is the native host with this address.
    pub fn is_native(self, ip: Ip6) -> bool
        /// See `Topology::at`.
        ensures { result ≡ is_native ip self }
    {
        match self {
            Node::Native(row) => ip == row.six,
            _ => false,
        }
    }
}
