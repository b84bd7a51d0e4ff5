//! A server at a link.
ghost use Rattle.std.specs.Prelude.{◌≡◌, ◌≤◌, ◌⊎◌, IfOk, OnErr};
ghost use Rattle.td_outside.specs.Causes.{Rose};
ghost use Rattle.td_outside.specs.Link.{both_at};
ghost use Rattle.td_outside.specs.Moves.{Gains};
ghost use Rattle.commands.specs.Session.{Served, BreaksOff, StaysShut};

use crate::serve_words::ServeWords;
use server_core::Server;
use td_base::Policy;
use td_outside::{Clock, Failed, Link};
use td_turns::{TURNS_MAX, Totals, serve_loop};

/// Opens the link and serves on it to the end that is asked for, under the policy that lets loopback addresses in.
/// Only the link can fail.
pub fn serve_on<L: Link, C: Clock>(
    asked: &ServeWords,
    link: &mut L,
    clock: &mut C,
) -> Result<Totals, Failed>
    requires count { asked.now.count ≤ TURNS_MAX }
    requires idles { asked.now.idles ≤ TURNS_MAX }
    ensures opened { Gains (L.state link.old).openings (L.state link.new).openings (both_at asked.now.primary asked.now.secondary) }
    ensures served { IfOk result (λ totals. Served (L.state link.old) (L.state link.new) (C.state clock.old) (C.state clock.new) asked.now totals) }
    ensures rose { OnErr result (Rose (L.state link.old).recv_faults (L.state link.new).recv_faults) }
    ensures failed { OnErr result (StaysShut (L.state link.old) (L.state link.new) (C.state clock.old) (C.state clock.new)
        ⊎ BreaksOff (L.state link.old) (L.state link.new) (C.state clock.old) (C.state clock.new) asked.now) }
{
    link.open(asked.primary, asked.secondary)?;
    let mut server = Server::new(asked.primary, asked.secondary, Policy::Loopback);
    let mut totals = Totals::NONE;
    match serve_loop(
        &mut server,
        link,
        clock,
        asked.count,
        asked.idles,
        &mut totals,
    ) {
        Ok(()) => Ok(totals),
        // The server wants no memory.
        Err(_) => Err(Failed),
    }
}
