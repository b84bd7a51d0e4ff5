//! The flags of addresses that are made here.
ghost use Rattle.std.specs.Prelude.{◌≡◌, ◌≤◌, bit_and};
ghost use Rattle.teredo_addr.specs.Teredo.{cone_flag, flags_of};

use crate::fields::CONE;

/// The flags that may be random, so that an address is harder to guess: RFC 5991, section 3.1. The other four are the
/// cone bit, a reserved one, and the two that say of an identifier that it is unique and a group's.
pub const FREE_FLAGS: u16 = 0x3cff;

/// The flags of a link-local address, and of an address without random flags.
#[inline(always)]
pub fn cone_flag(cone: bool) -> u16
    /// See `link_local`.
    ensures { result ≡ cone_flag cone }
{
    if cone { CONE } else { 0 }
}

/// The free flags of a word.
#[inline(always)]
#[tactic(auto, using(crate::proofs::FlagLaws::free_most))]
fn free_flags(word: u32) -> u16
    ensures exact { result ≡ bit_and word FREE_FLAGS }
    ensures most { result ≤ FREE_FLAGS }
{
    (word & u32::from(FREE_FLAGS)) as u16
}

/// The flags of an address: the cone bit, and the free flags of a random word, if there is one.
#[inline(always)]
pub fn flags_of(cone: bool, random: Option<u32>) -> u16
    /// Flags that are made are the cone bit and a word's free bits; whatever the word, three of the sixteen stay 0.
    /// Leaves open: where the word comes from.
    ensures { result ≡ flags_of cone random }
{
    match random {
        Some(word) => cone_flag(cone) + free_flags(word),
        None => cone_flag(cone),
    }
}
