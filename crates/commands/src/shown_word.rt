//! The datagram that a word spells, shown.
ghost use Rattle.commands.specs.Show.{ShowEnds};

use crate::last_line::end_with;
use crate::statuses::{BAD_PAYLOAD, DONE};
use show::{Page, explain};
use td_outside::Sink;

/// The command `show HEX`. It never answers `NO_MEMORY`.
pub fn show_word<K: Sink>(word: &str, out: &mut K) -> u8
    /// 0 on `show`: the word spells a payload, and its page was written.
    ensures { ShowEnds (K.state out.old) (K.state out.new) word.now result }
{
    let mut page = Page::new();
    if explain(word.as_bytes(), &mut page) {
        return end_with(out, page.as_slice(), DONE);
    }
    end_with(out, page.as_slice(), BAD_PAYLOAD)
}
