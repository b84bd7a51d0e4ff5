//! The line that `qualify` ends with.
ghost use Rattle.std.specs.Prelude.{◌≡◌, ◌≤◌, length};
ghost use Rattle.commands.specs.QualifyLine.{live_text, live_status, qualify_line};

use crate::serve_line::put_part;
use crate::statuses::{DONE, UNDECIDED};
use td_base::{LineBuf, print_ip6};
use td_live::{Live, LiveTotals};

// More than the longest answer: a word and an address.
const ANSWER_LEN: usize = 64;

/// The status that goes with what was found.
pub fn live_status(live: &Live) -> u8
    ensures { result ≡ live_status live.now }
{
    match live {
        Live::Undecided => UNDECIDED,
        _ => DONE,
    }
}

/// Puts what was found in place of what the buffer held.
fn put_live(live: &Live, out: &mut LineBuf)
    ensures text { out.new ≡ live_text live.now }
    ensures short { length out.new ≤ ANSWER_LEN }
{
    out.clear();
    match live {
        Live::Qualified { address } => {
            out.push_text(b"qualified ");
            let _ = print_ip6(*address, out);
        }
        Live::Symmetric => out.push_text(b"symmetric"),
        Live::OffLine => out.push_text(b"offline"),
        Live::Undecided => out.push_text(b"undecided"),
    }
}

/// Puts the line of what was found and of the attempts in place of what the buffer held.
pub fn put_qualify_line(live: &Live, totals: &LiveTotals, out: &mut LineBuf)
    ensures { out.new ≡ qualify_line live.now totals.now }
{
    put_live(live, out);
    put_part(b" sent ", totals.sent, out);
    put_part(b" failed ", totals.failed, out);
    out.push_text(b"\n");
}
