//! Where two texts differ first.
ghost use Rattle.std.specs.Prelude.{◌≡◌};
ghost use Rattle.td_explain.specs.Difference.{difference};

/// How many bytes the fronts of both have that are the same.
pub(crate) fn difference(one: &[u8], other: &[u8]) -> usize
    ensures { result ≡ difference one.now other.now }
{
    let most = one.len().min(other.len());
    let mut at = 0;
    while at < most {
        if one[at] != other[at] {
            return at;
        }
        at += 1;
    }
    most
}
