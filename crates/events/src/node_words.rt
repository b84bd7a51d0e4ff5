//! The nodes that words name.
ghost use Rattle.std.specs.Prelude.{◌≡◌};
ghost use Rattle.events.specs.NodeWords.{target_of};

use crate::target::Target;
use td_base::read_ip6;
use topology::{Topology, host_named};

/// Whom a word names.
pub(crate) fn target_word(t: &Topology, word: &[u8]) -> Option<Target>
    ensures { result ≡ target_of t.now word.now }
{
    if let Some(number) = host_named(t, word) {
        return Some(Target::Node(number));
    }
    let ip = read_ip6(word).ok()?;
    Some(Target::At(ip))
}
