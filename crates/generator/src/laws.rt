//! What holds of every generated scenario, and of its numbers.
ghost use Rattle.generator.specs.Generated.{EachGeneratedIsHonest};
ghost use Rattle.generator.specs.Numbers.{GeneratedNumbers};

/// Each generated scenario is honest: nobody in it says that it is a NAT, a server or a relay. This holds for every
/// seed and count. So what is claimed of honest scenarios is so of these with no premise. It is stated in
/// `Generated.antt`, with what honest is in `legal/Honest.antt`.
pub fn generated_is_honest()
    ensures { EachGeneratedIsHonest }
{}

/// The numbers of its nodes and of its events are those of this project.
pub fn generated_numbers()
    ensures { GeneratedNumbers }
{}
