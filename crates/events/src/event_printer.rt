//! The text of an event.
ghost use Rattle.std.specs.Prelude.{◌≡◌, ◌≤◌, ◌*◌, ◌++◌, ◌∷◌, length, decimal, IfOk, OnOk};
ghost use Rattle.hex.specs.Hex.{encode_lower};
ghost use Rattle.td_base.specs.Ep.{IsEp};
ghost use Rattle.td_base.specs.Ip6.{IsIp6};
ghost use Rattle.td_base.specs.Texts.{ep_text};
ghost use Rattle.td_base.specs.Ip6Texts.{ip6_text};
ghost use Rattle.events.specs.Words.{space};
ghost use Rattle.topology.specs.Rows.{TopologyState};
ghost use Rattle.topology.specs.Rules.{IsTopology};
ghost use Rattle.events.specs.Verbs.{verb_word};
ghost use Rattle.events.specs.declared.event.Event.TheVariants as event;
ghost use Rattle.events.specs.Events.{IsEvent};
ghost use Rattle.events.specs.EventText.{event_of};
ghost use Rattle.events.specs.EventSpelling.{hex_word, name_word, target_word, event_text, IsMadeTarget};

use crate::event::{ADVANCE_MAX_MS, ENTRY_NUMBER_MAX, Event, FAULT_MAX};
use crate::target::Target;
use crate::verb::Verb;
use itoa::Buffer;
use std::alloc::Global;
use td_base::{DATAGRAM_MAX, Ep, Ip6, LineBuf, NoMemory, print_ep, print_ip6};
use topology::Topology;

/// The most digits of a word of bytes.
const DIGITS_MAX: usize = 2 * DATAGRAM_MAX;

/// A text that begins with an event's word.
fn begin(alloc: Global, verb: Verb) -> Result<Vec<u8>, NoMemory>
    ensures { IfOk result (λ text. text.items ≡ verb_word verb) }
{
    Ok(Vec::from_slice(alloc, verb.name().as_bytes())?)
}

/// Appends a space and a word.
fn push_word(text: &mut Vec<u8>, word: &[u8]) -> Result<(), NoMemory>
    ensures { OnOk result (text.new.items ≡ text.old.items ++ space ∷ word.now) }
{
    text.push(b' ')?;
    text.extend_from_slice(word)?;
    Ok(())
}

fn push_number(text: &mut Vec<u8>, number: u64) -> Result<(), NoMemory>
    ensures { OnOk result (text.new.items ≡ text.old.items ++ space ∷ decimal number) }
{
    let mut digits = Buffer::new();
    push_word(text, digits.format(number).as_bytes())
}

fn push_ep(text: &mut Vec<u8>, ep: Ep) -> Result<(), NoMemory>
    ensures is { IsEp ep }
    ensures text { OnOk result (text.new.items ≡ text.old.items ++ space ∷ ep_text ep) }
{
    // Each number is read, so that its range is known.
    let [_a, _b, _c, _d] = ep.ip.0;
    let _port = ep.port;
    let mut line = LineBuf::new();
    let _ = print_ep(ep, &mut line);
    push_word(text, line.as_slice())
}

fn push_ip6(text: &mut Vec<u8>, ip: Ip6) -> Result<(), NoMemory>
    ensures is { IsIp6 ip }
    ensures text { OnOk result (text.new.items ≡ text.old.items ++ space ∷ ip6_text ip) }
{
    // As a slice, its bytes are known to be bytes.
    let _bytes = ip.0.as_slice();
    let mut line = LineBuf::new();
    let _ = print_ip6(ip, &mut line);
    push_word(text, line.as_slice())
}

fn push_digits(text: &mut Vec<u8>, bytes: &[u8]) -> Result<(), NoMemory>
    requires { length bytes.now ≤ DATAGRAM_MAX }
    ensures { OnOk result (text.new.items ≡ text.old.items ++ space ∷ encode_lower bytes.now) }
{
    let mut room = [0; DIGITS_MAX];
    let digits = &mut room[..2 * bytes.len()];
    if hex::encode_to_slice(bytes, digits).is_err() {
        unreachable!();
    }
    push_word(text, digits)
}

fn push_bytes(text: &mut Vec<u8>, bytes: &[u8]) -> Result<(), NoMemory>
    requires { length bytes.now ≤ DATAGRAM_MAX }
    ensures { OnOk result (text.new.items ≡ text.old.items ++ space ∷ hex_word bytes.now) }
{
    if bytes.is_empty() {
        return push_word(text, b"-");
    }
    push_digits(text, bytes)
}

fn push_node(text: &mut Vec<u8>, t: &Topology, node: u16) -> Result<(), NoMemory>
    ensures rules { IsTopology t.now }
    ensures text { OnOk result (text.new.items ≡ text.old.items ++ space ∷ name_word t.now node) }
{
    // With a list of rows comes the fact that the topology keeps its rules.
    let _servers = t.servers();
    match t.name_at(node) {
        Some(name) => push_word(text, name.as_slice()),
        None => push_word(text, b""),
    }
}

fn push_target(text: &mut Vec<u8>, t: &Topology, to: Target) -> Result<(), NoMemory>
    ensures is { IsMadeTarget to }
    ensures text { OnOk result (text.new.items ≡ text.old.items ++ space ∷ target_word t.now to) }
{
    match to {
        Target::Node(number) => push_node(text, t, number),
        Target::At(ip) => push_ip6(text, ip),
    }
}

#[tactic(auto, unfolding(crate::specs::EventSpelling::event_text))]
fn advance_text(alloc: Global, ms: u64) -> Result<Vec<u8>, NoMemory>
    requires { ms ≤ ADVANCE_MAX_MS }
    ensures text { (t : TopologyState) → IfOk result (λ text. text.items ≡ event_text t (event.Advance ms)) }
    ensures again { (t : TopologyState) → IfOk result (λ text. event_of t text.items ≡ Ok (event.Advance ms)) }
{
    let mut text = begin(alloc, Verb::Advance)?;
    push_number(&mut text, ms)?;
    Ok(text)
}

#[tactic(auto, unfolding(crate::specs::EventSpelling::event_text))]
fn deliver_text(alloc: Global, number: u32) -> Result<Vec<u8>, NoMemory>
    requires { number ≤ ENTRY_NUMBER_MAX }
    ensures text { (t : TopologyState) → IfOk result (λ text. text.items ≡ event_text t (event.Deliver number)) }
    ensures again { (t : TopologyState) → IfOk result (λ text. event_of t text.items ≡ Ok (event.Deliver number)) }
{
    let mut text = begin(alloc, Verb::Deliver)?;
    push_number(&mut text, u64::from(number))?;
    Ok(text)
}

#[tactic(auto, unfolding(crate::specs::EventSpelling::event_text))]
fn next_text(alloc: Global) -> Result<Vec<u8>, NoMemory>
    ensures text { (t : TopologyState) → IfOk result (λ text. text.items ≡ event_text t event.Next) }
    ensures again { (t : TopologyState) → IfOk result (λ text. event_of t text.items ≡ Ok event.Next) }
{
    begin(alloc, Verb::Next)
}

#[tactic(auto, unfolding(crate::specs::EventSpelling::event_text), using(crate::proofs::SpellingLaws::joined_four))]
fn host_text(
    alloc: Global,
    t: &Topology,
    node: u16,
    to: Target,
    body: &[u8],
) -> Result<Vec<u8>, NoMemory>
    requires { IsEvent t.now (event.Host node to body.now) }
    ensures text { IfOk result (λ text. text.items ≡ event_text t.now (event.Host node to body.now)) }
    ensures again { IfOk result (λ text. event_of t.now text.items ≡ Ok (event.Host node to body.now)) }
{
    let mut text = begin(alloc, Verb::Host)?;
    push_node(&mut text, t, node)?;
    push_target(&mut text, t, to)?;
    push_bytes(&mut text, body)?;
    Ok(text)
}

#[tactic(auto, unfolding(crate::specs::EventSpelling::event_text), using(crate::proofs::SpellingLaws::joined_four))]
fn echo_text(
    alloc: Global,
    t: &Topology,
    node: u16,
    to: Target,
    seq: u16,
) -> Result<Vec<u8>, NoMemory>
    requires { IsEvent t.now (event.Echo node to seq) }
    ensures text { IfOk result (λ text. text.items ≡ event_text t.now (event.Echo node to seq)) }
    ensures again { IfOk result (λ text. event_of t.now text.items ≡ Ok (event.Echo node to seq)) }
{
    let mut text = begin(alloc, Verb::Echo)?;
    push_node(&mut text, t, node)?;
    push_target(&mut text, t, to)?;
    push_number(&mut text, u64::from(seq))?;
    Ok(text)
}

#[tactic(auto, unfolding(crate::specs::EventSpelling::event_text), using(crate::proofs::SpellingLaws::joined_three))]
fn raw_text(alloc: Global, t: &Topology, node: u16, bytes: &[u8]) -> Result<Vec<u8>, NoMemory>
    requires { IsEvent t.now (event.Raw node bytes.now) }
    ensures text { IfOk result (λ text. text.items ≡ event_text t.now (event.Raw node bytes.now)) }
    ensures again { IfOk result (λ text. event_of t.now text.items ≡ Ok (event.Raw node bytes.now)) }
{
    let mut text = begin(alloc, Verb::Raw)?;
    push_node(&mut text, t, node)?;
    push_bytes(&mut text, bytes)?;
    Ok(text)
}

#[tactic(auto, unfolding(crate::specs::EventSpelling::event_text), using(crate::proofs::SpellingLaws::joined_four))]
fn stranger_text(alloc: Global, src: Ep, dst: Ep, bytes: &[u8]) -> Result<Vec<u8>, NoMemory>
    requires { length bytes.now ≤ DATAGRAM_MAX }
    ensures text { (t : TopologyState) → IfOk result (λ text. text.items ≡ event_text t (event.Stranger src dst bytes.now)) }
    ensures again { (t : TopologyState) → IfOk result (λ text. event_of t text.items ≡ Ok (event.Stranger src dst bytes.now)) }
{
    let mut text = begin(alloc, Verb::Stranger)?;
    push_ep(&mut text, src)?;
    push_ep(&mut text, dst)?;
    push_bytes(&mut text, bytes)?;
    Ok(text)
}

#[tactic(auto, unfolding(crate::specs::EventSpelling::event_text), using(crate::proofs::SpellingLaws::joined_four))]
fn copy_text(alloc: Global, number: u32, src: Ep, dst: Ep) -> Result<Vec<u8>, NoMemory>
    requires { number ≤ ENTRY_NUMBER_MAX }
    ensures text { (t : TopologyState) → IfOk result (λ text. text.items ≡ event_text t (event.Copy number src dst)) }
    ensures again { (t : TopologyState) → IfOk result (λ text. event_of t text.items ≡ Ok (event.Copy number src dst)) }
{
    let mut text = begin(alloc, Verb::Copy)?;
    push_number(&mut text, u64::from(number))?;
    push_ep(&mut text, src)?;
    push_ep(&mut text, dst)?;
    Ok(text)
}

#[tactic(auto, unfolding(crate::specs::EventSpelling::event_text))]
fn restart_text(alloc: Global, t: &Topology, node: u16) -> Result<Vec<u8>, NoMemory>
    requires { IsEvent t.now (event.Restart node) }
    ensures text { IfOk result (λ text. text.items ≡ event_text t.now (event.Restart node)) }
    ensures again { IfOk result (λ text. event_of t.now text.items ≡ Ok (event.Restart node)) }
{
    let mut text = begin(alloc, Verb::Restart)?;
    push_node(&mut text, t, node)?;
    Ok(text)
}

#[tactic(auto, unfolding(crate::specs::EventSpelling::event_text), using(crate::proofs::SpellingLaws::joined_three))]
fn forget_text(alloc: Global, t: &Topology, nat: u16, client: u16) -> Result<Vec<u8>, NoMemory>
    requires { IsEvent t.now (event.Forget nat client) }
    ensures text { IfOk result (λ text. text.items ≡ event_text t.now (event.Forget nat client)) }
    ensures again { IfOk result (λ text. event_of t.now text.items ≡ Ok (event.Forget nat client)) }
{
    let mut text = begin(alloc, Verb::Forget)?;
    push_node(&mut text, t, nat)?;
    push_node(&mut text, t, client)?;
    Ok(text)
}

#[tactic(auto, unfolding(crate::specs::EventSpelling::event_text))]
fn fault_text(alloc: Global, send: u8) -> Result<Vec<u8>, NoMemory>
    requires { send ≤ FAULT_MAX }
    ensures text { (t : TopologyState) → IfOk result (λ text. text.items ≡ event_text t (event.Fault send)) }
    ensures again { (t : TopologyState) → IfOk result (λ text. event_of t text.items ≡ Ok (event.Fault send)) }
{
    let mut text = begin(alloc, Verb::Fault)?;
    push_number(&mut text, u64::from(send))?;
    Ok(text)
}

#[tactic(auto, unfolding(crate::specs::EventSpelling::event_text))]
fn settle_text(alloc: Global) -> Result<Vec<u8>, NoMemory>
    ensures text { (t : TopologyState) → IfOk result (λ text. text.items ≡ event_text t event.Settle) }
    ensures again { (t : TopologyState) → IfOk result (λ text. event_of t text.items ≡ Ok event.Settle) }
{
    begin(alloc, Verb::Settle)
}

/// Prints the text of an event.
pub fn print_event(alloc: Global, t: &Topology, e: &Event) -> Result<Vec<u8>, NoMemory>
    requires { IsEvent t.now e.now }
    /// An event prints as its text, which reads back as the event.
    /// Needs: the event is one that a scenario with these nodes may ask for; memory.
    ensures text { IfOk result (λ text. text.items ≡ event_text t.now e.now) }
    // It reads back.
    /// See `text`.
    ensures again { IfOk result (λ text. event_of t.now text.items ≡ Ok e.now) }
{
    match e {
        Event::Advance { ms } => advance_text(alloc, *ms),
        Event::Deliver { number } => deliver_text(alloc, *number),
        Event::Next => next_text(alloc),
        Event::Host { node, to, body } => host_text(alloc, t, *node, *to, body.as_slice()),
        Event::Echo { node, to, seq } => echo_text(alloc, t, *node, *to, *seq),
        Event::Raw { node, bytes } => raw_text(alloc, t, *node, bytes.as_slice()),
        Event::Stranger { src, dst, bytes } => stranger_text(alloc, *src, *dst, bytes.as_slice()),
        Event::Copy { number, src, dst } => copy_text(alloc, *number, *src, *dst),
        Event::Restart { node } => restart_text(alloc, t, *node),
        Event::Forget { nat, client } => forget_text(alloc, t, *nat, *client),
        Event::Fault { send } => fault_text(alloc, *send),
        Event::Settle => settle_text(alloc),
    }
}
