//! A server at a link, to its end.
ghost use Rattle.std.specs.Prelude.{◌≤◌};
ghost use Rattle.commands.specs.Session.{ServeEnds};

use crate::last_line::end_with;
use crate::serve_line::put_serve_line;
use crate::serve_words::ServeWords;
use crate::session::serve_on;
use crate::statuses::{DONE, NO_LINK};
use td_base::LineBuf;
use td_outside::{Clock, Link, Sink};
use td_turns::TURNS_MAX;

/// The command `serve IP1 IP2 COUNT IDLES`. It never answers `NO_MEMORY`.
pub fn serve_at<K: Sink, L: Link, C: Clock>(
    asked: &ServeWords,
    out: &mut K,
    link: &mut L,
    clock: &mut C,
) -> u8
    requires count { asked.now.count ≤ TURNS_MAX }
    requires idles { asked.now.idles ≤ TURNS_MAX }
    /// `serve` asks the link to open on IP1 and IP2 alone, once.
    ensures { ServeEnds (K.state out.old) (K.state out.new) (L.state link.old) (L.state link.new) (C.state clock.old) (C.state clock.new) asked.now result }
{
    let Ok(totals) = serve_on(asked, link, clock) else {
        return NO_LINK;
    };
    let mut line = LineBuf::new();
    put_serve_line(&totals, &mut line);
    end_with(out, line.as_slice(), DONE)
}
