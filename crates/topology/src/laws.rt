//! Laws of every topology.
ghost use Rattle.topology.specs.NodeRules.{AddressesAreApart, OwnAddressIsTaken, EachNodeKeepsRules};
ghost use Rattle.topology.specs.Numbers.{TopologyNumbers};

/// No address is that of two nodes.
/// See `each_node`.
pub fn apart()
    ensures { AddressesAreApart }
{}

/// A node's address is one of the topology's.
/// See `each_node`.
pub fn taken()
    ensures { OwnAddressIsTaken }
{}

/// Each node keeps the rules of its kind, and no address is that of two nodes. What the rules, which are over all rows,
/// say of the node of a number.
/// Needs: a topology that keeps the rules.
pub fn each_node()
    ensures { EachNodeKeepsRules }
{}

/// The limits of nodes and times are those of `docs/SCENARIOS.md`.
pub fn topology_numbers()
    ensures { TopologyNumbers }
{}
