//! Laws of the definitions: each is the contract of a function that does nothing.
ghost use Rattle.teredo_node.specs.Numbers.{StepNumbers};

/// The numbers of a step are those of the rules.
pub fn numbers_of_steps()
    ensures { StepNumbers }
{}
