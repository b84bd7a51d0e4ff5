//! What one word of a text says.
ghost use Rattle.std.specs.Prelude.{◌≡◌, ◌<◌, ◌≤◌, ◌/◌, length, IfOk};
ghost use Rattle.events.specs.Words.{hex_of, bytes_spelled};

use std::alloc::Global;
use td_base::{DATAGRAM_MAX, NoMemory, Octets};

/// How many bytes most words say at most. Only for a longer word is more room made.
const SHORT_MAX: usize = 64;

/// The bytes that digits say, at most as many as there is room for.
fn read_into(
    alloc: Global,
    digits: &[u8],
    most: usize,
    room: &mut [u8],
) -> Result<Option<Octets>, NoMemory>
    requires some { 0 < length digits.now }
    requires few { length digits.now / 2 ≤ most }
    requires room { length digits.now / 2 ≤ length room.old }
    ensures { IfOk result (λ o. o ≡ hex_of most digits.now) }
{
    let bytes = &mut room[..digits.len() / 2];
    if hex::decode_to_slice(digits, bytes).is_err() {
        return Ok(None);
    }
    Ok(Some(Octets::new(alloc, bytes)?))
}

/// The bytes that hexadecimal digits say, one to `most` of them.
fn digits_word(alloc: Global, digits: &[u8], most: usize) -> Result<Option<Octets>, NoMemory>
    requires { most ≤ DATAGRAM_MAX }
    ensures { IfOk result (λ o. o ≡ hex_of most digits.now) }
{
    if digits.is_empty() {
        return Ok(None);
    }
    let len = digits.len() / 2;
    if len > most {
        return Ok(None);
    }
    if len <= SHORT_MAX {
        return read_into(alloc, digits, most, &mut [0; SHORT_MAX]);
    }
    read_into(alloc, digits, most, &mut [0; DATAGRAM_MAX])
}

/// The bytes that a word says, at most `most` of them.
#[tactic(auto, unfolding(crate::specs::Words::bytes_spelled))]
pub(crate) fn bytes_word(
    alloc: Global,
    word: &[u8],
    most: usize,
) -> Result<Option<Octets>, NoMemory>
    requires { most ≤ DATAGRAM_MAX }
    ensures { IfOk result (λ o. o ≡ bytes_spelled most word.now) }
{
    if word == b"-".as_slice() {
        return Ok(Some(Octets::new(alloc, b"")?));
    }
    digits_word(alloc, word, most)
}
