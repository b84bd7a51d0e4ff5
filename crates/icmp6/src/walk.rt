//! Whole options, one behind the other.
ghost use Rattle.std.specs.Prelude.{◌≡◌, ◌+◌, ◌≤◌, length, IfOk, ◌<◌};
ghost use Rattle.td_base.specs.Results.{Gives};
ghost use Rattle.icmp6.specs.Options.{option_len, whole_options};

use crate::fault::IcmpFault;
use crate::numbers::{OPTION_HEAD_LEN, OPTION_UNIT};

/// How many bytes the whole option at a place has: RFC 4861, section 4.6.
#[inline(always)]
#[tactic(auto, unfolding(crate::specs::Options::option_len))]
pub fn len_at(bytes: &[u8], place: usize) -> Result<usize, IcmpFault>
    requires { place ≤ length bytes.now }
    ensures exact { Gives (λ len. len) result (option_len place bytes.now) }
    ensures whole { IfOk result (λ len. (0 < len) × (place + len ≤ length bytes.now)) }
{
    let left = bytes.len() - place;
    if left < OPTION_HEAD_LEN {
        return Err(IcmpFault::OptionCut { place });
    }
    let len = OPTION_UNIT * bytes[place + 1] as usize;
    if len == 0 {
        return Err(IcmpFault::OptionZero { place });
    }
    if left < len {
        return Err(IcmpFault::OptionCut { place });
    }
    Ok(len)
}

/// Whether the bytes from a place on are whole options, one behind the other.
#[inline(always)]
pub fn are_whole(bytes: &[u8], start: usize) -> Result<(), IcmpFault>
    requires { start ≤ length bytes.now }
    ensures { Gives (λ x. x) result (whole_options (length bytes.now) start bytes.now) }
{
    let mut place = start;
    while place < bytes.len() {
        place += len_at(bytes, place)?;
    }
    Ok(())
}
