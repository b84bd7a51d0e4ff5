//! What a NAT does with what comes to it as to a node.
ghost use Rattle.std.specs.Prelude.{◌≡◌, None};
ghost use Rattle.topology.specs.declared.nat_node.NatNode.{NatNode};
ghost use Rattle.lab_nodes.specs.declared.call.Call.{Call};
ghost use Rattle.lab_nodes.specs.declared.played_node.PlayedNode.TheVariants as played;
ghost use Rattle.lab_nodes.specs.Answers.{AnswersCall};

use crate::asked::Asked;
use crate::outlet::Outlet;
use teredo_node::{Fate, Step};

/// What a NAT does that is asked: nothing.
pub fn answer_nat(step: &mut Step) -> Asked<'static>
    ensures none { result.packet ≡ None }
    ensures answers { (x : Call) (row : NatNode) → AnswersCall x (played.Nat row) (played.Nat row) step.new result }
{
    step.reset(Fate::Idle);
    Asked {
        outlet: Outlet::Silent,
        packet: None,
        handed: None,
        address: None,
    }
}
