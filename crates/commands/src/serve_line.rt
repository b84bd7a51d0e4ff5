//! The line that `serve` ends with.
ghost use Rattle.std.specs.Prelude.{◌≡◌, ◌+◌, ◌≤◌, ◌++◌, length};
ghost use Rattle.commands.specs.ServeLine.{word_and_number, serve_line};

use td_base::{LINE_LEN, LineBuf, NUMBER_LEN, print_number};
use td_turns::Totals;

/// Appends a word and a number.
pub fn put_part(word: &[u8], number: u64, out: &mut LineBuf)
    requires { length out.old + length word.now + NUMBER_LEN ≤ LINE_LEN }
    /// A part of a line is a word and a number behind what the buffer held.
    ensures text { out.new ≡ out.old ++ word_and_number word.now number }
    /// See `text`.
    ensures short { length out.new ≤ length out.old + length word.now + NUMBER_LEN }
{
    out.push_text(word);
    let _ = print_number(number, out);
}

/// Puts the line of the totals in place of what the buffer held.
pub fn put_serve_line(totals: &Totals, out: &mut LineBuf)
    ensures { out.new ≡ serve_line totals.now }
{
    out.clear();
    put_part(b"served ", totals.served, out);
    put_part(b" sent ", totals.sent, out);
    put_part(b" failed ", totals.failed, out);
    put_part(b" six ", totals.six, out);
    put_part(b" dropped ", totals.dropped, out);
    out.push_text(b"\n");
}
