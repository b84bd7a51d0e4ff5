//! The nodes of a scenario, by their numbers.
ghost use Rattle.std.specs.Prelude.{◌≡◌, ◌≤◌, ◌<◌, ◌∷◌, [], ◌++◌, ◌+◌, length, position, option_map, IfSome, OnOk, OnErr};
ghost use Rattle.std.specs.Option.{option_or};
ghost use Rattle.topology.specs.declared.topology.TheConstants.{NODES_MAX};

use crate::client_node::ClientNode;
use crate::nat_node::NatNode;
use crate::native_node::NativeNode;
use crate::node::Node;
use crate::node_name::Name;
use crate::places::{client_behind, nat_at, native_with, relay_at, server_at};
use crate::relay_node::RelayNode;
use crate::server_node::ServerNode;
use std::alloc::Global;
use std::marker::Model;
use td_base::{Ep, Ip6, NoMemory};

/// How many servers a scenario has at most.
pub const SERVERS_MAX: usize = 8;

/// How many NATs a scenario has at most.
pub const NATS_MAX: usize = 64;

/// How many clients a scenario has at most.
pub const CLIENTS_MAX: usize = 64;

/// How many relays a scenario has at most.
pub const RELAYS_MAX: usize = 4;

/// How many native hosts a scenario has at most.
pub const NATIVES_MAX: usize = 64;

/// How many nodes a scenario has at most.
pub const NODES_MAX: usize = SERVERS_MAX + NATS_MAX + CLIENTS_MAX + RELAYS_MAX + NATIVES_MAX;

/// The nodes of a scenario, numbered from 0: the servers in order, then the NATs, the clients, the relays, the native
/// hosts. It keeps the rules of `specs/Rules.antt`.
#[derive(Drop)]
pub struct Topology {
    servers: Vec<ServerNode>,
    nats: Vec<NatNode>,
    clients: Vec<ClientNode>,
    relays: Vec<RelayNode>,
    natives: Vec<NativeNode>,
}

impl Model for Topology {
    ghost use Rattle.topology.specs.Rows.{TopologyState};
    ghost use Rattle.topology.specs.Rules.{IsTopology};

    ghost Value = { TopologyState };

    ghost view = { λ t. record {
      servers = t.servers.items;
      nats = t.nats.items;
      clients = t.clients.items;
      relays = t.relays.items;
      natives = t.natives.items;
    } };

    ghost invariant = { λ t. IsTopology (record {
      servers = t.servers.items;
      nats = t.nats.items;
      clients = t.clients.items;
      relays = t.relays.items;
      natives = t.natives.items;
    }) };
}

impl Topology {
    ghost use Rattle.topology.specs.Rows.{no_nodes, with_server, with_nat, with_client, with_relay, with_native};
    ghost use Rattle.topology.specs.Rules.{IsTopology};
    ghost use Rattle.topology.specs.declared.node.Node.TheVariants.{Server as server, Nat as nat, Client as client, Relay as relay, Native as native};
    ghost use Rattle.topology.specs.Topology.{name_of, node_at, nodes, first_passing, is_at, is_behind, is_native};

    /// No nodes.
    pub fn new(alloc: Global) -> Topology
        /// Nodes are kept in the order in which they were added.
        /// Needs: memory; the rules with the new row, and no node of a later kind yet.
        ensures { result ≡ no_nodes }
    {
        Topology {
            servers: Vec::new(alloc),
            nats: Vec::new(alloc),
            clients: Vec::new(alloc),
            relays: Vec::new(alloc),
            natives: Vec::new(alloc),
        }
    }

    /// The servers in order.
    pub fn servers(&self) -> &[ServerNode]
        /// Nodes are lent in the order in which they were added, and keep the rules of a topology. The rules: few
        /// enough, names and addresses that differ, addresses that are global and made, numbers that are of nodes of
        /// the right kind.
        ensures value { result.now ≡ self.now.servers }
        /// See `value`.
        ensures rules { IsTopology self.now }
    {
        self.servers.as_slice()
    }

    /// The NATs in order.
    pub fn nats(&self) -> &[NatNode]
        /// See `Topology::servers`: `value`.
        ensures value { result.now ≡ self.now.nats }
        /// See `Topology::servers`: `value`.
        ensures rules { IsTopology self.now }
    {
        self.nats.as_slice()
    }

    /// The clients in order.
    pub fn clients(&self) -> &[ClientNode]
        /// See `Topology::servers`: `value`.
        ensures value { result.now ≡ self.now.clients }
        /// See `Topology::servers`: `value`.
        ensures rules { IsTopology self.now }
    {
        self.clients.as_slice()
    }

    /// The relays in order.
    pub fn relays(&self) -> &[RelayNode]
        /// See `Topology::servers`: `value`.
        ensures value { result.now ≡ self.now.relays }
        /// See `Topology::servers`: `value`.
        ensures rules { IsTopology self.now }
    {
        self.relays.as_slice()
    }

    /// The native hosts in order.
    pub fn natives(&self) -> &[NativeNode]
        /// See `Topology::servers`: `value`.
        ensures value { result.now ≡ self.now.natives }
        /// See `Topology::servers`: `value`.
        ensures rules { IsTopology self.now }
    {
        self.natives.as_slice()
    }

    /// The node with that number, over all kinds of nodes.
    #[tactic(auto, using(crate::proofs::Counts::few))]
    pub fn node(&self, number: usize) -> Option<Node>
        /// A node is found by its number, servers first, then NATs, clients, relays and native hosts; no other number
        /// has one.
        ensures found { result ≡ node_at self.now number }
        /// See `found`.
        ensures within { IfSome result (λ _. number < length (nodes self.now)) }
        /// See `found`.
        ensures few { length (nodes self.now) ≤ NODES_MAX }
    {
        let mut place = number;
        if let Some(row) = self.servers.get(place) {
            return Some(Node::Server(*row));
        }
        place -= self.servers.len();
        if let Some(row) = self.nats.get(place) {
            return Some(Node::Nat(*row));
        }
        place -= self.nats.len();
        if let Some(row) = self.clients.get(place) {
            return Some(Node::Client(*row));
        }
        place -= self.clients.len();
        if let Some(row) = self.relays.get(place) {
            return Some(Node::Relay(*row));
        }
        place -= self.relays.len();
        let row = self.natives.get(place)?;
        Some(Node::Native(*row))
    }

    /// The name of the node with that number. Its row isn't copied, of which the name is a small part.
    pub fn name_at(&self, number: u16) -> Option<Name>
        /// See `Topology::node`: `found`.
        ensures { result ≡ option_map name_of (node_at self.now number) }
    {
        let mut left = usize::from(number);
        if let Some(row) = self.servers.get(left) {
            return Some(row.name);
        }
        left -= self.servers.len();
        if let Some(row) = self.nats.get(left) {
            return Some(row.name);
        }
        left -= self.nats.len();
        if let Some(row) = self.clients.get(left) {
            return Some(row.name);
        }
        left -= self.clients.len();
        if let Some(row) = self.relays.get(left) {
            return Some(row.name);
        }
        left -= self.relays.len();
        let row = self.natives.get(left)?;
        Some(row.name)
    }

    fn nat_number(&self, dst: Ep) -> Option<u16>
        ensures { result ≡ option_map (λ k. length self.now.servers + k) (position (λ row. is_at dst (nat row)) self.now.nats) }
    {
        let number = self.servers.len();
        match nat_at(self.nats.as_slice(), dst) {
            Some(place) => Some((number + place) as u16),
            None => None,
        }
    }

    fn relay_number(&self, dst: Ep) -> Option<u16>
        ensures { result ≡ option_map (λ k. length self.now.servers + length self.now.nats + length self.now.clients + k)
            (position (λ row. is_at dst (relay row)) self.now.relays) }
    {
        let number = self.servers.len() + self.nats.len() + self.clients.len();
        match relay_at(self.relays.as_slice(), dst) {
            Some(place) => Some((number + place) as u16),
            None => None,
        }
    }

    fn number_at(&self, dst: Ep) -> Option<u16>
        ensures { result ≡ option_or (position (λ row. is_at dst (server row)) self.now.servers)
            (option_or (option_map (λ k. length self.now.servers + k) (position (λ row. is_at dst (nat row)) self.now.nats))
            (option_map (λ k. length self.now.servers + length self.now.nats + length self.now.clients + k)
            (position (λ row. is_at dst (relay row)) self.now.relays))) }
    {
        if let Some(place) = server_at(self.servers.as_slice(), dst) {
            return Some(place as u16);
        }
        if let Some(number) = self.nat_number(dst) {
            return Some(number);
        }
        self.relay_number(dst)
    }

    fn number_behind(&self, nat: u16, inside: Ep) -> Option<u16>
        ensures { result ≡ option_map (λ k. length self.now.servers + length self.now.nats + k)
            (position (λ row. is_behind nat inside (client row)) self.now.clients) }
    {
        let number = self.servers.len() + self.nats.len();
        match client_behind(self.clients.as_slice(), nat, inside) {
            Some(place) => Some((number + place) as u16),
            None => None,
        }
    }

    fn number_with(&self, ip: Ip6) -> Option<u16>
        ensures { result ≡ option_map (λ k. length self.now.servers + length self.now.nats + length self.now.clients + length self.now.relays + k)
            (position (λ row. is_native ip (native row)) self.now.natives) }
    {
        let number = self.servers.len() + self.nats.len() + self.clients.len() + self.relays.len();
        match native_with(self.natives.as_slice(), ip) {
            Some(place) => Some((number + place) as u16),
            None => None,
        }
    }

    /// The number of the node that datagrams to an endpoint come to.
    pub fn at(&self, dst: Ep) -> Option<u16>
        /// Who is at an endpoint, behind a NAT, or has an IPv6 address is the first such node, by its number.
        ensures { result ≡ first_passing (is_at dst) self.now }
    {
        self.number_at(dst)
    }

    /// The number of the client behind a NAT that has this inside endpoint.
    pub fn client_behind(&self, nat: u16, inside: Ep) -> Option<u16>
        /// See `Topology::at`.
        ensures { result ≡ first_passing (is_behind nat inside) self.now }
    {
        self.number_behind(nat, inside)
    }

    /// The number of the native host with this address.
    pub fn native_with(&self, ip: Ip6) -> Option<u16>
        /// See `Topology::at`.
        ensures { result ≡ first_passing (is_native ip) self.now }
    {
        self.number_with(ip)
    }

    /// Appends a server, or drops it where memory runs out. No node of another kind is there yet.
    pub fn add_server(&mut self, row: ServerNode) -> Result<(), NoMemory>
        requires rules { IsTopology (with_server self.old row) }
        requires order { (self.old.nats ≡ []) × (self.old.clients ≡ []) × (self.old.relays ≡ []) × (self.old.natives ≡ []) }
        /// See `Topology::new`.
        ensures ok { OnOk result (self.new ≡ with_server self.old row) }
        /// See `Topology::new`.
        ensures err { OnErr result (self.new ≡ self.old) }
    {
        self.servers.push(row)?;
        Ok(())
    }

    /// Appends a NAT, or drops it where memory runs out. No client, relay or native host is there yet.
    pub fn add_nat(&mut self, row: NatNode) -> Result<(), NoMemory>
        requires rules { IsTopology (with_nat self.old row) }
        requires order { (self.old.clients ≡ []) × (self.old.relays ≡ []) × (self.old.natives ≡ []) }
        /// See `Topology::new`.
        ensures ok { OnOk result (self.new ≡ with_nat self.old row) }
        /// See `Topology::new`.
        ensures err { OnErr result (self.new ≡ self.old) }
    {
        self.nats.push(row)?;
        Ok(())
    }

    /// Appends a client, or drops it where memory runs out. No relay or native host is there yet.
    pub fn add_client(&mut self, row: ClientNode) -> Result<(), NoMemory>
        requires rules { IsTopology (with_client self.old row) }
        requires order { (self.old.relays ≡ []) × (self.old.natives ≡ []) }
        /// See `Topology::new`.
        ensures ok { OnOk result (self.new ≡ with_client self.old row) }
        /// See `Topology::new`.
        ensures err { OnErr result (self.new ≡ self.old) }
    {
        self.clients.push(row)?;
        Ok(())
    }

    /// Appends a relay, or drops it where memory runs out. No native host is there yet.
    pub fn add_relay(&mut self, row: RelayNode) -> Result<(), NoMemory>
        requires rules { IsTopology (with_relay self.old row) }
        requires order { self.old.natives ≡ [] }
        /// See `Topology::new`.
        ensures ok { OnOk result (self.new ≡ with_relay self.old row) }
        /// See `Topology::new`.
        ensures err { OnErr result (self.new ≡ self.old) }
    {
        self.relays.push(row)?;
        Ok(())
    }

    /// Appends a native host, or drops it where memory runs out.
    pub fn add_native(&mut self, row: NativeNode) -> Result<(), NoMemory>
        requires { IsTopology (with_native self.old row) }
        /// See `Topology::new`.
        ensures ok { OnOk result (self.new ≡ with_native self.old row) }
        /// See `Topology::new`.
        ensures err { OnErr result (self.new ≡ self.old) }
    {
        self.natives.push(row)?;
        Ok(())
    }
}
