//! Laws of the rows of a topology, and of what is kept of its nodes.
ghost use Rattle.lab_nodes.specs.Laws.{EachClientKeepsRules};
ghost use Rattle.lab_nodes.specs.DueMoments.{EachSumIsOfThePast};
ghost use Rattle.lab_nodes.specs.Waits.{EachWaitsAsInThePast};

/// A client of a topology keeps to the rules for clients.
/// Needs: the topology keeps its rules.
pub fn rows_keep_rules()
    ensures { EachClientKeepsRules }
{}

/// All due moments of the nodes are read off what is kept of them. Whatever is summed over them is what the history
/// gives, each waiting peer among them. It is stated in `DueMoments.antt`, with `legal/Left.antt`.
/// Needs: no moment before that of an earlier call.
pub fn due_as_in_the_past()
    ensures { EachSumIsOfThePast }
{}

/// All packets that wait in the nodes are read off what is kept of them: they weigh what the history says. It is stated
/// in `Waits.antt`, with `weights/Burden.antt`.
/// Needs: no moment before that of an earlier call.
pub fn waits_as_in_the_past()
    ensures { EachWaitsAsInThePast }
{}
