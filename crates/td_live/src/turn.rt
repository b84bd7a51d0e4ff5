//! One turn of a session.
ghost use Rattle.std.specs.Prelude.{◌≡◌, ◌≤◌, ◌+◌, ◌*◌, List, [], ◌∷◌, true, IsTrue, nat_lt, is_err, OnOk, OnErr, MatchResult};
ghost use Rattle.td_outside.specs.Causes.{HasCause};
ghost use Rattle.td_outside.specs.Link.{Came};
ghost use Rattle.td_outside.specs.Moves.{Stays};
ghost use Rattle.td_turns.specs.Turn.{Carries};
ghost use Rattle.teredo_node.specs.declared.step.TheConstants.{SENDS_MAX};
ghost use Rattle.teredo_node.specs.Journal.{Journal};
ghost use Rattle.qualify.specs.declared.phase.Phase.{Phase};
ghost use Rattle.qualify.specs.Solicitations.{is_due};
ghost use Rattle.client_core.specs.Client.{ClientStandsFor, IsCallable, settings_of};
ghost use Rattle.client_core.specs.Endpoint.{owing};
ghost use Rattle.client_rules.specs.Journals.{client_due};
ghost use Rattle.td_live.specs.Asked.{LiveClient};
ghost use Rattle.td_live.specs.LiveTurns.{receives, after_due, after_came};
ghost use Rattle.td_live.specs.Half.{IsAt, IsAwaiting, IsSomewhere, Advances, FailsBy, TakesTurn};
ghost use Rattle.td_live.specs.declared.live_totals.TheConstants.{ATTEMPTS_END};

use crate::LiveTotals;
use client_core::Client;
use qualify::Phase;
use td_base::Millis;
use td_outside::{Failed, Link};
use td_turns::{PumpFault, Pumped, pump, tick};
use teredo_node::{Endpoint, Step};

/// Whether a client waits for its server's answer in a phase.
pub(crate) fn receives(phase: Phase) -> bool
    ensures { result ≡ receives phase }
{
    match phase {
        Phase::Cone => true,
        Phase::Restricted => true,
        Phase::Secondary => true,
        _ => false,
    }
}

// Whether something is due of a client.
fn is_due(client: &Client, now: Millis) -> bool
    requires callable { IsCallable client.now now.0 }
    ensures due { (j : Journal) → ClientStandsFor client.now j → result ≡ is_due now.0 (client_due (settings_of client.now) j now.0) }
    ensures owed { result ≡ nat_lt 0 (owing client.now now.0) }
{
    match client.due(now) {
        Some(at) => at.0 <= now.0,
        None => false,
    }
}

// Does what is due, and attempts its sends.
fn do_due<L: Link>(
    client: &mut Client,
    link: &mut L,
    now: Millis,
    step: &mut Step,
    totals: &mut LiveTotals,
)
    requires callable { IsCallable client.old now.0 }
    requires few { totals.old.sent + totals.old.failed ≤ ATTEMPTS_END }
    ensures goes { (c : LiveClient) (j : Journal) → IsAt c client.old j
        → Advances c j (after_due c j now.0) client.new (L.state link.old).told (L.state link.new).told [] totals.old totals.new }
    ensures again { IsCallable client.new now.0 }
    ensures some { totals.new.sent + totals.new.failed ≤ totals.old.sent + totals.old.failed + SENDS_MAX }
    ensures receives { (L.state link.new).recv_faults ≡ (L.state link.old).recv_faults }
    ensures sends { FailsBy (L.state link.old).send_faults (L.state link.new).send_faults totals.old.failed totals.new.failed }
    ensures places { (L.state link.new).place ≡ (L.state link.old).place }
    ensures asked { Stays (L.state link.old).openings (L.state link.new).openings }
{
    if !is_due(client, now) {
        return;
    }
    if let Some(failed) = tick(client, link, now, step) {
        totals.count(step, failed);
    }
}

// Receives once, and attempts the sends of what is answered. The client lists nobody, and so wants no memory.
fn take_next<L: Link>(
    client: &mut Client,
    link: &mut L,
    now: Millis,
    step: &mut Step,
    totals: &mut LiveTotals,
) -> Result<(), Failed>
    requires callable { IsCallable client.old now.0 }
    requires asking { IsAwaiting client.old }
    requires few { totals.old.sent + totals.old.failed ≤ ATTEMPTS_END }
    ensures goes { OnOk result ((c : LiveClient) (j : Journal) → IsAt c client.old j → (came : Came)
        × Advances c j (after_came c j now.0 came) client.new (L.state link.old).told (L.state link.new).told (came ∷ []) totals.old totals.new) }
    ensures broke { OnErr result ((c : LiveClient) (j : Journal) → IsAt c client.old j
        → Advances c j j client.new (L.state link.old).told (L.state link.new).told [] totals.old totals.new) }
    ensures again { IsCallable client.new now.0 }
    ensures some { totals.new.sent + totals.new.failed ≤ totals.old.sent + totals.old.failed + SENDS_MAX }
    ensures receives { HasCause (L.state link.old).recv_faults (L.state link.new).recv_faults result }
    ensures sends { FailsBy (L.state link.old).send_faults (L.state link.new).send_faults totals.old.failed totals.new.failed }
    ensures places { (L.state link.new).place ≡ (L.state link.old).place }
    ensures asked { Stays (L.state link.old).openings (L.state link.new).openings }
{
    match pump(client, link, now, step) {
        Ok(Pumped::Took { failed, .. }) => {
            totals.count(step, failed);
            Ok(())
        }
        Ok(Pumped::Idle) => Ok(()),
        Err(PumpFault::Receive) => Err(Failed),
        Err(PumpFault::NoMemory) => unreachable!(),
    }
}

/// Does what is due, and receives once where the client waits for its server's answer then.
pub(crate) fn take_turn<L: Link>(
    client: &mut Client,
    link: &mut L,
    now: Millis,
    step: &mut Step,
    totals: &mut LiveTotals,
) -> Result<(), Failed>
    requires callable { IsCallable client.old now.0 }
    requires somewhere { IsSomewhere client.old }
    requires few { totals.old.sent + totals.old.failed + SENDS_MAX ≤ ATTEMPTS_END }
    ensures turn { (c : LiveClient) (j : Journal) → IsAt c client.old j
        → TakesTurn c j now.0 client.new (L.state link.old).told (L.state link.new).told totals.old totals.new (is_err result) }
    ensures again { IsCallable client.new now.0 }
    ensures some { totals.new.sent + totals.new.failed ≤ totals.old.sent + totals.old.failed + 2 * SENDS_MAX }
    ensures receives { HasCause (L.state link.old).recv_faults (L.state link.new).recv_faults result }
    ensures sends { FailsBy (L.state link.old).send_faults (L.state link.new).send_faults totals.old.failed totals.new.failed }
    ensures places { (L.state link.new).place ≡ (L.state link.old).place }
    ensures asked { Stays (L.state link.old).openings (L.state link.new).openings }
{
    do_due(client, link, now, step, totals);
    if !receives(client.phase()) {
        return Ok(());
    }
    take_next(client, link, now, step, totals)
}
