//! What holds of every scenario that a text is.
ghost use Rattle.std.specs.Prelude.{◌≡◌, ℕ, List, Ok};
ghost use Rattle.topology.specs.Rules.{IsTopology};
ghost use Rattle.events.specs.Scenario.{Scenario};
ghost use Rattle.scenario.specs.Numbers.{ScenarioNumbers};
ghost use Rattle.scenario.specs.Scenario.{scenario_of};

/// The nodes of every text that is a scenario keep the rules of a topology. This is a law over all texts. The nodes are
/// few enough, names and addresses differ, addresses are global, mappings live for 1 ms or more, each client is behind
/// a NAT, and each native host has a relay.
pub fn rules_kept()
    ensures { (text : List ℕ) (s : Scenario) → scenario_of text ≡ Ok s → IsTopology s.topology }
{}

/// A text, a path and a key that is shown have at most 4,194,304, 48 and 32 bytes.
pub fn scenario_numbers()
    ensures { ScenarioNumbers }
{}
