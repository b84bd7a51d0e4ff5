//! What a word says: bytes, by two hexadecimal digits of either case each.
ghost use Rattle.std.specs.Prelude.{◌≡◌, ◌*◌, None, length, position};
ghost use Rattle.show.specs.Words.{is_other, bad_place, bytes_said};

/// The place of the first byte that is no digit.
fn first_other(word: &[u8]) -> Option<usize>
    ensures { result ≡ position is_other word.now }
{
    word.iter().position(|byte| !byte.is_ascii_hexdigit())
}

/// The place where a word isn't hexadecimal text: its first byte that is no digit, else its end where their number is odd.
#[tactic(auto, unfolding(crate::specs::Words::bad_place))]
pub(crate) fn bad_place(word: &[u8]) -> Option<usize>
    ensures { result ≡ bad_place word.now }
{
    if let Some(place) = first_other(word) {
        return Some(place);
    }
    if word.len() % 2 == 1 {
        return Some(word.len());
    }
    None
}

/// Puts the bytes that digits say into a room of their length.
pub(crate) fn put_bytes(digits: &[u8], room: &mut [u8])
    requires text { bad_place digits.now ≡ None }
    requires fits { length digits.now ≡ 2 * length room.old }
    ensures { room.new ≡ bytes_said digits.now }
{
    if hex::decode_to_slice(digits, room).is_err() {
        unreachable!();
    }
}
