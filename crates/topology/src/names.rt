//! The nodes that have a name.
ghost use Rattle.std.specs.Prelude.{◌≡◌, ◌<◌, ◌+◌, ◌==◌, ◌&&◌, nat_eq, length, position, option_map, Some, IfSome};
ghost use Rattle.std.specs.Cmp.Lexicographic.{pointwise};
ghost use Rattle.topology.specs.Names.{name_text};
ghost use Rattle.topology.specs.Named.{has_host, is_server, is_nat, is_relay, is_client_of, any_kind, named};

use crate::client_node::ClientNode;
use crate::nat_node::NatNode;
use crate::native_node::NativeNode;
use crate::node_name::{NAME_LEN, Name};
use crate::relay_node::RelayNode;
use crate::server_node::ServerNode;
use crate::topology::Topology;

fn server_place(rows: &[ServerNode], word: &[u8]) -> Option<usize>
    ensures { result ≡ position (λ row. pointwise nat_eq (name_text row.name) word.now) rows.now }
{
    rows.iter().position(|row| row.name.as_slice() == word)
}

fn nat_place(rows: &[NatNode], word: &[u8]) -> Option<usize>
    ensures { result ≡ position (λ row. pointwise nat_eq (name_text row.name) word.now) rows.now }
{
    rows.iter().position(|row| row.name.as_slice() == word)
}

#[tactic(auto, unfolding(crate::specs::Names::same_name))]
fn client_place(rows: &[ClientNode], word: &[u8]) -> Option<usize>
    ensures { result ≡ position (λ row. pointwise nat_eq (name_text row.name) word.now) rows.now }
{
    let Some(name) = Name::new(word) else {
        return rows.iter().position(|row| row.name.as_slice() == word);
    };
    rows.iter().position(|row| row.name == name)
}

fn relay_place(rows: &[RelayNode], word: &[u8]) -> Option<usize>
    ensures { result ≡ position (λ row. pointwise nat_eq (name_text row.name) word.now) rows.now }
{
    rows.iter().position(|row| row.name.as_slice() == word)
}

#[tactic(auto, unfolding(crate::specs::Names::same_name))]
fn native_place(rows: &[NativeNode], word: &[u8]) -> Option<usize>
    ensures { result ≡ position (λ row. pointwise nat_eq (name_text row.name) word.now) rows.now }
{
    let Some(name) = Name::new(word) else {
        return rows.iter().position(|row| row.name.as_slice() == word);
    };
    rows.iter().position(|row| row.name == name)
}

fn place_behind(rows: &[ClientNode], nat: u16, word: &[u8]) -> Option<usize>
    ensures { result ≡ position (λ row. (row.nat == nat) && pointwise nat_eq (name_text row.name) word.now) rows.now }
{
    rows.iter()
        .position(|row| row.nat == nat && row.name.as_slice() == word)
}

/// The number of the client at a place.
fn number_of_client(t: &Topology, place: usize) -> u16
    requires { place < length t.now.clients }
    ensures { result ≡ length t.now.servers + length t.now.nats + place }
{
    (t.servers().len() + t.nats().len() + place) as u16
}

/// The number of the native host at a place.
fn number_of_native(t: &Topology, place: usize) -> u16
    requires { place < length t.now.natives }
    ensures { result ≡ length t.now.servers + length t.now.nats + length t.now.clients + length t.now.relays + place }
{
    (t.servers().len() + t.nats().len() + t.clients().len() + t.relays().len() + place) as u16
}

fn server_number(t: &Topology, word: &[u8]) -> Option<u16>
    ensures { result ≡ position (λ row. pointwise nat_eq (name_text row.name) word.now) t.now.servers }
{
    let place = server_place(t.servers(), word)?;
    Some(place as u16)
}

fn nat_number(t: &Topology, word: &[u8]) -> Option<u16>
    ensures { result ≡ option_map (λ k. length t.now.servers + k) (position (λ row. pointwise nat_eq (name_text row.name) word.now) t.now.nats) }
{
    let place = nat_place(t.nats(), word)?;
    Some((t.servers().len() + place) as u16)
}

fn client_number(t: &Topology, word: &[u8]) -> Option<u16>
    ensures { result ≡ option_map (λ k. length t.now.servers + length t.now.nats + k)
        (position (λ row. pointwise nat_eq (name_text row.name) word.now) t.now.clients) }
{
    let place = client_place(t.clients(), word)?;
    Some(number_of_client(t, place))
}

fn relay_number(t: &Topology, word: &[u8]) -> Option<u16>
    ensures { result ≡ option_map (λ k. length t.now.servers + length t.now.nats + length t.now.clients + k)
        (position (λ row. pointwise nat_eq (name_text row.name) word.now) t.now.relays) }
{
    let place = relay_place(t.relays(), word)?;
    Some((t.servers().len() + t.nats().len() + t.clients().len() + place) as u16)
}

fn native_number(t: &Topology, word: &[u8]) -> Option<u16>
    ensures { result ≡ option_map (λ k. length t.now.servers + length t.now.nats + length t.now.clients + length t.now.relays + k)
        (position (λ row. pointwise nat_eq (name_text row.name) word.now) t.now.natives) }
{
    let place = native_place(t.natives(), word)?;
    Some(number_of_native(t, place))
}

/// The value of a decimal digit.
fn digit(byte: u8) -> Option<usize> {
    if !byte.is_ascii_digit() {
        return None;
    }
    Some(usize::from(byte - b'0'))
}

/// The number that a word ends with; 0 where it ends with none. The nodes of a scenario are mostly named so in order, and the
/// row at this place is looked at first.
fn last_number(word: &[u8]) -> usize {
    let mut number = 0usize;
    for byte in word {
        number = match digit(*byte) {
            Some(value) => number.wrapping_mul(10).wrapping_add(value),
            None => 0,
        };
    }
    number
}

/// The number of the client at a place, where it has the name.
fn guessed_client(t: &Topology, place: usize, word: &[u8]) -> Option<u16>
    ensures { IfSome result (λ number. Some number ≡ named has_host t.now word.now) }
{
    let client = t.clients().get(place)?;
    if client.name.as_slice() != word {
        return None;
    }
    Some(number_of_client(t, place))
}

/// The number of the native host at a place, where it has the name.
fn guessed_native(t: &Topology, place: usize, word: &[u8]) -> Option<u16>
    ensures { IfSome result (λ number. Some number ≡ named has_host t.now word.now) }
{
    let host = t.natives().get(place)?;
    if host.name.as_slice() != word {
        return None;
    }
    Some(number_of_native(t, place))
}

/// The number of the client or native host at a place, where it has the name.
fn guessed_at(t: &Topology, place: usize, word: &[u8]) -> Option<u16>
    ensures { IfSome result (λ number. Some number ≡ named has_host t.now word.now) }
{
    if let Some(number) = guessed_client(t, place, word) {
        return Some(number);
    }
    guessed_native(t, place, word)
}

/// The number of the client or native host of a name, where it stands at the place that its last digits say, or at the one in
/// front of that: the first has number 0 in some scenarios, and 1 in others.
fn guessed_host(t: &Topology, word: &[u8]) -> Option<u16>
    ensures { IfSome result (λ number. Some number ≡ named has_host t.now word.now) }
{
    let guess = last_number(word);
    if let Some(number) = guessed_at(t, guess, word) {
        return Some(number);
    }
    guessed_at(t, guess.wrapping_sub(1), word)
}

/// The number of the client or native host of a name. A longer word names none: an address, mostly.
#[tactic(auto, using(crate::proofs::Numbering::host_at, crate::proofs::DistinctNames::none_so_long))]
pub fn host_named(t: &Topology, word: &[u8]) -> Option<u16>
    /// Who has a name is the first such node, by its number: a node with a host, a server, a relay, a NAT, a client
    /// behind a NAT, or any node.
    ensures { result ≡ named has_host t.now word.now }
{
    if word.len() > NAME_LEN {
        return None;
    }
    if let Some(number) = guessed_host(t, word) {
        return Some(number);
    }
    if let Some(number) = client_number(t, word) {
        return Some(number);
    }
    native_number(t, word)
}

/// The number of the server of a name.
#[tactic(auto, using(crate::proofs::Numbering::server_numbered))]
pub fn server_named(t: &Topology, word: &[u8]) -> Option<u16>
    /// See `host_named`.
    ensures { result ≡ named is_server t.now word.now }
{
    server_number(t, word)
}

/// The number of the relay of a name.
#[tactic(auto, using(crate::proofs::Numbering::relay_numbered))]
pub fn relay_named(t: &Topology, word: &[u8]) -> Option<u16>
    /// See `host_named`.
    ensures { result ≡ named is_relay t.now word.now }
{
    relay_number(t, word)
}

/// The number of the NAT of a name.
#[tactic(auto, using(crate::proofs::Numbering::nat_numbered))]
pub fn nat_named(t: &Topology, word: &[u8]) -> Option<u16>
    /// See `host_named`.
    ensures { result ≡ named is_nat t.now word.now }
{
    nat_number(t, word)
}

fn number_behind(t: &Topology, nat: u16, word: &[u8]) -> Option<u16>
    ensures { result ≡ option_map (λ k. length t.now.servers + length t.now.nats + k)
        (position (λ row. (row.nat == nat) && pointwise nat_eq (name_text row.name) word.now) t.now.clients) }
{
    let place = place_behind(t.clients(), nat, word)?;
    Some(number_of_client(t, place))
}

/// The number of the client of a name behind a NAT.
#[tactic(auto, using(crate::proofs::Numbering::client_at))]
pub fn client_named(t: &Topology, nat: u16, word: &[u8]) -> Option<u16>
    /// See `host_named`.
    ensures { result ≡ named (is_client_of nat) t.now word.now }
{
    number_behind(t, nat, word)
}

/// The number of the node of a name.
#[tactic(auto, using(crate::proofs::Numbering::any_at))]
pub fn node_named(t: &Topology, word: &[u8]) -> Option<u16>
    /// See `host_named`.
    ensures { result ≡ named any_kind t.now word.now }
{
    if let Some(number) = server_number(t, word) {
        return Some(number);
    }
    if let Some(number) = nat_number(t, word) {
        return Some(number);
    }
    if let Some(number) = client_number(t, word) {
        return Some(number);
    }
    if let Some(number) = relay_number(t, word) {
        return Some(number);
    }
    native_number(t, word)
}
