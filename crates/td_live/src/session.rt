//! A session: turns of a client at a link, until it knows.
ghost use Rattle.std.specs.Prelude.{◌≡◌, ◌≤◌, ◌<◌, ◌+◌, ◌*◌, ◌⊎◌, true, Ok, Err, MatchResult};
ghost use Rattle.td_outside.specs.Causes.{HasCause};
ghost use Rattle.td_outside.specs.Link.{KeepsTold, client_on, free_port_of};
ghost use Rattle.td_outside.specs.Moves.{Stays, Gains};
ghost use Rattle.td_turns.specs.Turn.{SendFaults};
ghost use Rattle.td_live.specs.Asked.{live_client};
ghost use Rattle.td_live.specs.LiveTotals.{no_attempts};
ghost use Rattle.td_live.specs.Session.{RunsTurns, SessionOf, NoSession};

use crate::asked::client_at;
use crate::live::found;
use crate::turn::{receives, take_turn};
use crate::{Asked, Live, LiveTotals};
use std::alloc::Global;
use td_base::{Ep, Ip4};
use td_outside::{Clock, Failed, Link};
use td_turns::TURNS_MAX;
use teredo_node::Step;

// Takes turns at a link that is open.
fn take_turns<L: Link, C: Clock>(
    alloc: Global,
    asked: Asked,
    at: Ep,
    link: &mut L,
    clock: &mut C,
    totals: &mut LiveTotals,
) -> Result<Live, Failed>
    requires some { 0 < asked.turns }
    requires most { asked.turns ≤ TURNS_MAX }
    requires zero { totals.old ≡ no_attempts }
    ensures turns { RunsTurns (live_client asked at) asked.turns (C.state clock.old) (C.state clock.new)
        (L.state link.old).told (L.state link.new).told totals.new result }
    ensures receives { HasCause (L.state link.old).recv_faults (L.state link.new).recv_faults result }
    ensures sends { SendFaults (L.state link.old).send_faults (L.state link.new).send_faults totals.new.failed }
    ensures places { (L.state link.new).place ≡ (L.state link.old).place }
    ensures asked { Stays (L.state link.old).openings (L.state link.new).openings }
{
    let first = clock.now();
    let mut client = client_at(alloc, asked, at, first);
    let mut step = Step::new();
    take_turn(&mut client, link, first, &mut step, totals)?;
    for _turn in 1..asked.turns {
        if !receives(client.phase()) {
            return Ok(found(&client));
        }
        let now = clock.now();
        take_turn(&mut client, link, now, &mut step, totals)?;
    }
    Ok(found(&client))
}

/// Opens the link's one socket at `inside`, and lets a client qualify there with the server of two addresses, in at most
/// so many turns (RFC 4380, section 5.2.1).
pub fn qualify<L: Link, C: Clock>(
    alloc: Global,
    inside: Ip4,
    primary: Ip4,
    secondary: Ip4,
    seed: u64,
    turns: u64,
    link: &mut L,
    clock: &mut C,
    totals: &mut LiveTotals,
) -> Result<Live, Failed>
    requires some { 0 < turns }
    requires most { turns ≤ TURNS_MAX }
    requires zero { totals.old ≡ no_attempts }
    /// - What is found is the phase and the address of the journal that the clock's moments and the link's datagrams
    ///   make. The client's endpoint is the one that the link is open on, whose address is INSIDE. Each turn reads the
    ///   clock once; the link's taken list got one element for each turn that received; the attempts that were added
    ///   are the journal's sends, each once, in order, and S and F count them.
    ///   Leaves open: that anything arrives.
    /// - A session ends after the first turn after which the client waits no more, or after TURNS turns. No turn is
    ///   begun once the phase is Qualified, Symmetric or OffLine, nor after a receive that failed; undecided is said
    ///   only where as many moments were given as turns were asked for.
    /// - See `receives`.
    ensures session { MatchResult result
        (λ answer. SessionOf (record { inside = inside; primary = primary; secondary = secondary; seed = seed; turns = turns })
        (L.state link.old) (L.state link.new) (C.state clock.old) (C.state clock.new) totals.new (Ok answer))
        (λ fault. NoSession (L.state link.old) (L.state link.new) (C.state clock.old) (C.state clock.new) totals.new
        ⊎ SessionOf (record { inside = inside; primary = primary; secondary = secondary; seed = seed; turns = turns })
        (L.state link.old) (L.state link.new) (C.state clock.old) (C.state clock.new) totals.new (Err fault)) }
    /// The link is asked once to open, at one socket of INSIDE.
    /// Needs: told.
    ensures asked { Gains (L.state link.old).openings (L.state link.new).openings (free_port_of inside) }
    /// A session fails only where the link's receiving count rose, and then after an open that failed or a receive that
    /// did. It needs no memory. While a client waits for its server's answer it lists nobody and holds nothing.
    ensures receives { HasCause (L.state link.old).recv_faults (L.state link.new).recv_faults result }
    /// See `receives`.
    ensures sends { SendFaults (L.state link.old).send_faults (L.state link.new).send_faults totals.new.failed }
{
    let at = link.open_client(inside)?;
    let asked = Asked {
        inside,
        primary,
        secondary,
        seed,
        turns,
    };
    take_turns(alloc, asked, at, link, clock, totals)
}
