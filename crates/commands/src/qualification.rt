//! A client's qualification at a link.
ghost use Rattle.std.specs.Prelude.{◌≡◌, ◌≤◌};
ghost use Rattle.commands.specs.Qualify.{QualifyEnds};

use crate::last_line::end_with;
use crate::qualify_line::{live_status, put_qualify_line};
use crate::statuses::NO_LINK;
use std::alloc::Global;
use td_base::LineBuf;
use td_live::{Asked, LiveTotals, qualify};
use td_outside::{Clock, Link, Sink};
use td_turns::TURNS_MAX;

/// The command `qualify INSIDE IP1 IP2 SEED TURNS`. It never answers `NO_MEMORY`.
pub fn qualify_at<K: Sink, L: Link, C: Clock>(
    alloc: Global,
    asked: &Asked,
    out: &mut K,
    link: &mut L,
    clock: &mut C,
) -> u8
    requires some { 1 ≤ asked.now.turns }
    requires few { asked.now.turns ≤ TURNS_MAX }
    /// `qualify` asks the link to open at one socket of INSIDE alone, once.
    ensures { QualifyEnds (K.state out.old) (K.state out.new) (L.state link.old) (L.state link.new) (C.state clock.old) (C.state clock.new) asked.now result }
{
    let mut totals = LiveTotals::NONE;
    let Ok(live) = qualify(
        alloc,
        asked.inside,
        asked.primary,
        asked.secondary,
        asked.seed,
        asked.turns,
        link,
        clock,
        &mut totals,
    ) else {
        return NO_LINK;
    };
    let mut line = LineBuf::new();
    put_qualify_line(&live, &totals, &mut line);
    end_with(out, line.as_slice(), live_status(&live))
}
