//! The rules of the values of a table: what names and addresses a further node may have beside those that are there.
ghost use Rattle.std.specs.Prelude.{◌≡◌, ◌==◌, ◌&&◌, ◌||◌, IfSome, ◌≤◌};
ghost use Rattle.std.specs.List.{list_all, list_any};
ghost use Rattle.td_base.specs.Ip4.{same_ip};
ghost use Rattle.td_base.specs.Ip6.{same_ip6};
ghost use Rattle.td_base.specs.Ep.{same_ep};
ghost use Rattle.topology.specs.Names.{same_name};
ghost use Rattle.topology.specs.NodeNames.{is_name_byte, begins_with_letter, is_name};
ghost use Rattle.scenario.specs.Fresh.{spelled_name, is_free_name, new_name, is_free_address, is_new_address};
ghost use Rattle.scenario.specs.Fresh.{new_address, other_address, new_endpoint, is_free_six, is_new_six, new_six};
ghost use Rattle.scenario.specs.Fresh.{is_free_inside, new_inside, kind_of, random_of, natural, idle_of, is_refresh};
ghost use Rattle.scenario.specs.Fresh.{refresh_of};

use nat_kinds::NatKind;
use td_base::{Ep, Ip4, Ip6, Policy, is_global, is_global6, read_ep, read_ip4, read_ip6};
use teredo_addr::is_teredo;
use topology::{
    ClientNode, IDLE_MAX_MS, NAME_LEN, Name, NatNode, NativeNode, REFRESH_MAX_MS, REFRESH_MIN_MS,
    RefreshRange, RelayNode, ServerNode, Topology,
};

fn is_name_byte(byte: u8) -> bool
    ensures { result ≡ is_name_byte byte }
{
    byte.is_ascii_lowercase() || byte.is_ascii_digit() || byte == b'_'
}

fn begins_with_letter(text: &[u8]) -> bool
    ensures { result ≡ begins_with_letter text.now }
{
    match text {
        [] => false,
        [byte, ..] => byte.is_ascii_lowercase(),
    }
}

fn all_name_bytes(text: &[u8]) -> bool
    ensures { result ≡ list_all is_name_byte text.now }
{
    text.iter().all(|byte| is_name_byte(*byte))
}

#[tactic(auto, unfolding(topology::specs::NodeNames::is_name))]
fn is_name(text: &[u8]) -> bool
    ensures { result ≡ is_name text.now }
{
    begins_with_letter(text) && all_name_bytes(text) && text.len() <= NAME_LEN
}

fn spelled_name(text: &[u8]) -> Option<Name>
    ensures { result ≡ spelled_name text.now }
{
    if !is_name(text) {
        return None;
    }
    Name::new(text)
}

fn is_name_of_servers(rows: &[ServerNode], name: Name) -> bool
    ensures { result ≡ list_any (λ row. same_name name row.name) rows.now }
{
    rows.iter().any(|row| name == row.name)
}

fn is_name_of_nats(rows: &[NatNode], name: Name) -> bool
    ensures { result ≡ list_any (λ row. same_name name row.name) rows.now }
{
    rows.iter().any(|row| name == row.name)
}

fn is_name_of_clients(rows: &[ClientNode], name: Name) -> bool
    ensures { result ≡ list_any (λ row. same_name name row.name) rows.now }
{
    rows.iter().any(|row| name == row.name)
}

fn is_name_of_relays(rows: &[RelayNode], name: Name) -> bool
    ensures { result ≡ list_any (λ row. same_name name row.name) rows.now }
{
    rows.iter().any(|row| name == row.name)
}

fn is_name_of_natives(rows: &[NativeNode], name: Name) -> bool
    ensures { result ≡ list_any (λ row. same_name name row.name) rows.now }
{
    rows.iter().any(|row| name == row.name)
}

/// Whether a client, a relay or a native host has the name.
fn is_name_of_others(topology: &Topology, name: Name) -> bool
    ensures { result ≡ (list_any (λ row. same_name name row.name) topology.now.clients
        || (list_any (λ row. same_name name row.name) topology.now.relays
        || list_any (λ row. same_name name row.name) topology.now.natives)) }
{
    is_name_of_clients(topology.clients(), name)
        || is_name_of_relays(topology.relays(), name)
        || is_name_of_natives(topology.natives(), name)
}

fn is_free_name(topology: &Topology, name: Name) -> bool
    ensures { result ≡ is_free_name topology.now name }
{
    !(is_name_of_servers(topology.servers(), name)
        || is_name_of_nats(topology.nats(), name)
        || is_name_of_others(topology, name))
}

fn is_address_of_servers(rows: &[ServerNode], ip: Ip4) -> bool
    ensures { result ≡ list_any (λ row. same_ip ip row.primary || same_ip ip row.secondary) rows.now }
{
    rows.iter()
        .any(|row| ip == row.primary || ip == row.secondary)
}

fn is_address_of_nats(rows: &[NatNode], ip: Ip4) -> bool
    ensures { result ≡ list_any (λ row. same_ip ip row.external) rows.now }
{
    rows.iter().any(|row| ip == row.external)
}

fn is_address_of_relays(rows: &[RelayNode], ip: Ip4) -> bool
    ensures { result ≡ list_any (λ row. same_ip ip row.at.ip) rows.now }
{
    rows.iter().any(|row| ip == row.at.ip)
}

fn is_free_address(topology: &Topology, ip: Ip4) -> bool
    ensures { result ≡ is_free_address topology.now ip }
{
    !(is_address_of_servers(topology.servers(), ip)
        || is_address_of_nats(topology.nats(), ip)
        || is_address_of_relays(topology.relays(), ip))
}

/// The name that a text gives to a further node.
#[tactic(auto, unfolding(crate::specs::Fresh::new_name))]
pub(crate) fn new_name(topology: &Topology, text: &str) -> Option<Name>
    ensures { result ≡ new_name topology.now text.now }
{
    let name = spelled_name(text.as_bytes())?;
    if !is_free_name(topology, name) {
        return None;
    }
    Some(name)
}

fn is_new_address(topology: &Topology, ip: Ip4) -> bool
    ensures { result ≡ is_new_address topology.now ip }
{
    is_global(Policy::Strict, ip) && is_free_address(topology, ip)
}

/// The address that a text gives to a further node.
#[tactic(auto, unfolding(crate::specs::Fresh::new_address))]
pub(crate) fn new_address(topology: &Topology, text: &str) -> Option<Ip4>
    ensures { result ≡ new_address topology.now text.now }
{
    let ip = read_ip4(text.as_bytes()).ok()?;
    if !is_new_address(topology, ip) {
        return None;
    }
    Some(ip)
}

/// The second address that a text gives to a server.
#[tactic(auto, unfolding(crate::specs::Fresh::other_address))]
pub(crate) fn other_address(topology: &Topology, first: Ip4, text: &str) -> Option<Ip4>
    ensures { result ≡ other_address topology.now first text.now }
{
    let ip = new_address(topology, text)?;
    if first == ip {
        return None;
    }
    Some(ip)
}

/// The endpoint that a text gives to a further relay.
#[tactic(auto, unfolding(crate::specs::Fresh::new_endpoint))]
pub(crate) fn new_endpoint(topology: &Topology, text: &str) -> Option<Ep>
    ensures { result ≡ new_endpoint topology.now text.now }
{
    let at = read_ep(text.as_bytes()).ok()?;
    if at.port == 0 {
        return None;
    }
    if !is_new_address(topology, at.ip) {
        return None;
    }
    Some(at)
}

fn is_six_of_relays(rows: &[RelayNode], ip: Ip6) -> bool
    ensures { result ≡ list_any (λ row. same_ip6 ip row.six) rows.now }
{
    rows.iter().any(|row| ip == row.six)
}

fn is_six_of_natives(rows: &[NativeNode], ip: Ip6) -> bool
    ensures { result ≡ list_any (λ row. same_ip6 ip row.six) rows.now }
{
    rows.iter().any(|row| ip == row.six)
}

fn is_free_six(topology: &Topology, ip: Ip6) -> bool
    ensures { result ≡ is_free_six topology.now ip }
{
    !(is_six_of_relays(topology.relays(), ip) || is_six_of_natives(topology.natives(), ip))
}

fn is_new_six(topology: &Topology, ip: Ip6) -> bool
    ensures { result ≡ is_new_six topology.now ip }
{
    is_global6(ip) && !is_teredo(ip) && is_free_six(topology, ip)
}

/// The IPv6 address that a text gives to a further node.
#[tactic(auto, unfolding(crate::specs::Fresh::new_six))]
pub(crate) fn new_six(topology: &Topology, text: &str) -> Option<Ip6>
    ensures { result ≡ new_six topology.now text.now }
{
    let ip = read_ip6(text.as_bytes()).ok()?;
    if !is_new_six(topology, ip) {
        return None;
    }
    Some(ip)
}

fn is_inside_of(rows: &[ClientNode], nat: u16, inside: Ep) -> bool
    ensures { result ≡ list_any (λ row. (nat == row.nat) && same_ep inside row.inside) rows.now }
{
    rows.iter()
        .any(|row| nat == row.nat && inside == row.inside)
}

#[tactic(auto, unfolding(crate::specs::Fresh::is_free_inside))]
fn is_free_inside(topology: &Topology, nat: u16, inside: Ep) -> bool
    ensures { result ≡ is_free_inside topology.now nat inside }
{
    !is_inside_of(topology.clients(), nat, inside)
}

/// The endpoint that a text gives to a further client behind a NAT.
#[tactic(auto, unfolding(crate::specs::Fresh::new_inside))]
pub(crate) fn new_inside(topology: &Topology, nat: u16, text: &str) -> Option<Ep>
    ensures { result ≡ new_inside topology.now nat text.now }
{
    let inside = read_ep(text.as_bytes()).ok()?;
    if inside.port == 0 {
        return None;
    }
    if !is_free_inside(topology, nat, inside) {
        return None;
    }
    Some(inside)
}

/// The kind of NAT that a text names.
#[tactic(auto, unfolding(crate::specs::Fresh::kind_of))]
pub(crate) fn kind_of(text: &str) -> Option<NatKind>
    ensures { result ≡ kind_of text.now }
{
    if text == "cone" {
        return Some(NatKind::Cone);
    }
    if text == "restricted" {
        return Some(NatKind::Restricted);
    }
    if text == "port" {
        return Some(NatKind::Port);
    }
    if text == "symmetric" {
        return Some(NatKind::Symmetric);
    }
    None
}

/// A whole number from 0.
pub(crate) fn natural(number: i64) -> Option<u64>
    ensures { result ≡ natural number }
{
    if number < 0 {
        return None;
    }
    Some(number as u64)
}

/// Whether a text says that flags are random.
#[tactic(auto, unfolding(crate::specs::Fresh::random_of))]
pub(crate) fn random_of(text: &str) -> Option<bool>
    ensures { result ≡ random_of text.now }
{
    if text == "zero" {
        return Some(false);
    }
    if text == "random" {
        return Some(true);
    }
    None
}

/// How many milliseconds a mapping lives.
#[tactic(auto, unfolding(crate::specs::Fresh::idle_of))]
pub(crate) fn idle_of(number: i64) -> Option<u32>
    ensures { result ≡ idle_of number }
{
    let ms = natural(number)?;
    if ms == 0 {
        return None;
    }
    if ms > u64::from(IDLE_MAX_MS) {
        return None;
    }
    Some(ms as u32)
}

fn is_refresh(low: u64, high: u64) -> bool
    ensures { result ≡ is_refresh low high }
{
    u64::from(REFRESH_MIN_MS) <= low && low <= high && high <= u64::from(REFRESH_MAX_MS)
}

/// The shortest and the longest time between two refreshes, in milliseconds.
#[tactic(auto, unfolding(crate::specs::Fresh::refresh_of))]
pub(crate) fn refresh_of(times: (i64, i64)) -> Option<RefreshRange>
    ensures { result ≡ refresh_of times }
{
    let low = natural(times.0)?;
    let high = natural(times.1)?;
    if !is_refresh(low, high) {
        return None;
    }
    Some(RefreshRange {
        low_ms: low as u32,
        high_ms: high as u32,
    })
}
