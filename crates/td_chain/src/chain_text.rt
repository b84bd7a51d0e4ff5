//! The text that asks for a chain of NATs.
ghost use Rattle.std.specs.Prelude.{◌≡◌, ◌≤◌, ◌==◌, ◌++◌, ◌∷◌, [], length, position, map, option_map, Some, None, IfOk, IfErr, OnOk};
ghost use Rattle.std.specs.List.{position_or_len};
ghost use Rattle.td_base.specs.Values.{parts_at};
ghost use Rattle.td_chain.specs.Nestings.{behind_of};
ghost use Rattle.td_chain.specs.ChainText.{comma, pair_of, few_pairs_of, chain_named, chain_asked};
ghost use Rattle.td_chain.specs.Pairs.{AddsPair, AddsNone, AddsAll, AddsNotAll};
ghost use Rattle.td_chain.specs.declared.chain_fault.ChainFault.TheVariants.{Chain};

use crate::chain_fault::ChainFault;
use crate::nesting::Nesting;
use crate::rules::is_chain;
use std::alloc::Global;
use td_base::NoMemory;
use topology::{NATS_MAX, Topology, nat_named};

/// Where the first of these bytes is in a text.
fn first_at(text: &[u8], mark: u8) -> Option<usize>
    ensures { result ≡ position (λ byte. byte == mark) text.now }
{
    text.iter().position(|byte| *byte == mark)
}

/// How many bytes stand before the first of these.
fn len_before(text: &[u8], mark: u8) -> usize
    ensures value { result ≡ position_or_len (λ byte. byte == mark) text.now }
    ensures within { result ≤ length text.now }
{
    match first_at(text, mark) {
        Some(len) => len,
        None => text.len(),
    }
}

/// The pair of NATs that a text names, as INNER:OUTER.
#[tactic(auto, unfolding(crate::specs::ChainText::pair_of))]
fn pair_of(topology: &Topology, text: &[u8]) -> Option<Nesting>
    ensures { option_map behind_of result ≡ pair_of topology.now text.now }
{
    let len = len_before(text, b':');
    if len >= text.len() {
        return None;
    }
    let Some(inner) = nat_named(topology, &text[..len]) else {
        return None;
    };
    let Some(outer) = nat_named(topology, &text[len + 1..]) else {
        return None;
    };
    Some(Nesting { inner, outer })
}

/// Appends a pair, or drops it where memory runs out.
fn add(list: &mut Vec<Nesting>, pair: Nesting) -> Result<(), NoMemory>
    ensures added { OnOk result (map behind_of list.new.items ≡ map behind_of list.old.items ++ behind_of pair ∷ []) }
{
    list.push(pair)?;
    Ok(())
}

/// Appends the pair that a text names.
fn add_named(list: &mut Vec<Nesting>, topology: &Topology, text: &[u8]) -> Result<(), ChainFault>
    ensures added { OnOk result (AddsPair (pair_of topology.now text.now) (map behind_of list.old.items) (map behind_of list.new.items)) }
    ensures none { IfErr result (λ why. why ≡ Chain → AddsNone (pair_of topology.now text.now) (map behind_of list.old.items)) }
{
    if list.len() >= NATS_MAX {
        return Err(ChainFault::Chain);
    }
    let Some(pair) = pair_of(topology, text) else {
        return Err(ChainFault::Chain);
    };
    add(list, pair)?;
    Ok(())
}

/// Appends the pairs that a text names, with commas between them.
fn add_pairs(list: &mut Vec<Nesting>, topology: &Topology, text: &[u8]) -> Result<(), ChainFault>
    ensures found { OnOk result (AddsAll topology.now (parts_at comma text.now) (map behind_of list.old.items) (map behind_of list.new.items)) }
    ensures none { IfErr result (λ why. why ≡ Chain → AddsNotAll topology.now (parts_at comma text.now) (map behind_of list.old.items)) }
{
    let len = len_before(text, b',');
    if len >= text.len() {
        return add_named(list, topology, text);
    }
    add_named(list, topology, &text[..len])?;
    add_pairs(list, topology, &text[len + 1..])
}

/// The pairs that a text names.
fn read_pairs(alloc: Global, topology: &Topology, text: &[u8]) -> Result<Vec<Nesting>, ChainFault>
    ensures found { IfOk result (λ list. few_pairs_of topology.now (parts_at comma text.now) ≡ Some (map behind_of list.items)) }
    ensures none { IfErr result (λ why. why ≡ Chain → few_pairs_of topology.now (parts_at comma text.now) ≡ None) }
{
    let mut list = Vec::new(alloc);
    add_pairs(&mut list, topology, text)?;
    Ok(list)
}

/// The chain that a text names: none by `-`.
#[tactic(auto, unfolding(crate::specs::ChainText::chain_named))]
fn read_names(alloc: Global, topology: &Topology, text: &[u8]) -> Result<Vec<Nesting>, ChainFault>
    ensures found { IfOk result (λ list. chain_named topology.now text.now ≡ Some (map behind_of list.items)) }
    ensures none { IfErr result (λ why. why ≡ Chain → chain_named topology.now text.now ≡ None) }
{
    if text == b"-".as_slice() {
        return Ok(Vec::new(alloc));
    }
    read_pairs(alloc, topology, text)
}

/// The chain that a text asks for, where it keeps the rules.
pub fn read_chain(
    alloc: Global,
    topology: &Topology,
    text: &[u8],
) -> Result<Vec<Nesting>, ChainFault>
    ensures found { IfOk result (λ list. chain_asked topology.now text.now ≡ Some (map behind_of list.items)) }
    ensures none { IfErr result (λ why. why ≡ Chain → chain_asked topology.now text.now ≡ None) }
{
    let chain = read_names(alloc, topology, text)?;
    if !is_chain(topology, chain.as_slice()) {
        return Err(ChainFault::Chain);
    }
    Ok(chain)
}
