//! The NATs of a topology in the chain that a text asks for.
ghost use Rattle.std.specs.Prelude.{◌≡◌, [], IfOk, IfErr};
ghost use Rattle.td_chain.specs.Chains.{ChainsStandFor};
ghost use Rattle.td_nested.specs.Nested.{has_six_side, IsNested, IsDueFault};

use crate::nested_fault::NestedFault;
use std::alloc::Global;
use td_chain::{ChainFault, Chains};
use topology::Topology;

/// Whether a node is a relay or a native host.
fn has_six_side(topology: &Topology) -> bool
    ensures { result ≡ has_six_side topology.now }
{
    if !topology.relays().is_empty() {
        return true;
    }
    !topology.natives().is_empty()
}

/// The NATs at moment 0, of which those are behind others that a text says: `-` for none, or pairs INNER:OUTER of names with
/// commas between them. What is wrong with the text is answered before what is wrong with the nodes.
pub fn chains_of<'a>(
    alloc: Global,
    topology: &'a Topology,
    chain: &[u8],
) -> Result<Chains<'a>, NestedFault>
    /// There is one exactly where the text asks for a chain of its NATs and no node is a relay or a native host; what
    /// is wrong with the text is answered first.
    /// Needs: memory, for which the other faults stand.
    ensures topology { IfOk result (λ c. c.topology ≡ topology.now) }
    /// See `topology`.
    ensures chain { IfOk result (λ c. IsNested topology.now chain.now c.chain) }
    /// See `topology`.
    ensures moment { IfOk result (λ c. c.moment ≡ 0) }
    /// See `topology`.
    ensures stands { IfOk result (λ c. ChainsStandFor c (λ k. [])) }
    /// See `topology`.
    ensures due { IfErr result (λ why. IsDueFault topology.now chain.now why) }
{
    let chains = match Chains::new(alloc, topology, chain) {
        Ok(chains) => chains,
        Err(ChainFault::Chain) => return Err(NestedFault::Chain),
        Err(ChainFault::NoMemory) => return Err(NestedFault::NoMemory),
    };
    if has_six_side(topology) {
        return Err(NestedFault::Nodes);
    }
    Ok(chains)
}
