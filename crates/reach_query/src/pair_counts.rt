//! How many pairs of hosts there are, by what is said of them.
ghost use Rattle.std.specs.Prelude.{◌≡◌, ◌+◌, ℕ, [], ◌∷◌};
ghost use Rattle.theory_reaching.specs.ReachLines.{Said};
ghost use Rattle.reach_query.specs.PairLines.{counted_pairs, AreCountsWithin, AreCounted};

use theory_reaching::{Reach, ReachClass};
use topology::NODES_MAX;

/// How many pairs of nodes there are at most.
pub const PAIRS_MAX: usize = NODES_MAX * NODES_MAX;

/// How many pairs of hosts there are, by what is said of the next packet from the one to the other.
#[derive(Clone, Copy, Debug, PartialEq, Eq)]
pub struct PairCounts {
    pub pairs: u64,
    /// Those of which a word says that it comes.
    pub within: u64,
    /// Those of which one says that it doesn't.
    pub shut: u64,
    /// Those of which nothing is said.
    pub unsaid: u64,
}

impl PairCounts {
    /// No pairs.
    pub fn new() -> PairCounts
        ensures counts { result ≡ counted_pairs [] }
        ensures few { AreCountsWithin 0 result }
    {
        PairCounts {
            pairs: 0,
            within: 0,
            shut: 0,
            unsaid: 0,
        }
    }

    /// Counts a pair with this word.
    pub fn add(&mut self, word: Reach)
        requires few { AreCountsWithin PAIRS_MAX self.old }
        ensures counted { (p : Said) → p.said ≡ word → AreCounted (p ∷ []) self.old self.new }
        ensures few { (most : ℕ) → AreCountsWithin most self.old → AreCountsWithin (most + 1) self.new }
    {
        self.pairs += 1;
        match word.class() {
            ReachClass::Within => self.within += 1,
            ReachClass::Shut => self.shut += 1,
            ReachClass::Unsaid => self.unsaid += 1,
        }
    }
}
