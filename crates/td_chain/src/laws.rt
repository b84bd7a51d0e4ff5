//! Laws of the numbers.
ghost use Rattle.td_chain.specs.Numbers.{ChainNumbers};

/// The limit of a chain is the one that docs/SCENARIOS.md says.
pub fn chain_numbers()
    ensures { ChainNumbers }
{}
