//! What is due of an endpoint at a moment, done at a link.
ghost use Rattle.std.specs.Prelude.{◌≡◌, ℕ, nat_lt, option_map, unwrap_or};
ghost use Rattle.td_outside.specs.Moves.{Stays};
ghost use Rattle.td_turns.specs.Turn.{SendFaults};
ghost use Rattle.td_turns.specs.Ticks.{TicksIfDue, TicksThrough};

use crate::turn::send_all;
use td_base::Millis;
use td_outside::Link;
use teredo_node::{Endpoint, Step};

// Whether something is due now.
fn is_due<E: Endpoint>(e: &E, now: Millis) -> bool
    requires ready { E.ready e.now now.0 }
    ensures { result ≡ nat_lt 0 (E.owing e.now now.0) }
{
    match e.due(now) {
        Some(at) => at.0 <= now.0,
        None => false,
    }
}

/// Does the first thing that is due, and attempts each send of it, in their order. The answer says which attempts
/// failed, as `Pumped` does. `None` is that nothing is due: then all stays as it was.
pub fn tick<E: Endpoint, L: Link>(
    e: &mut E,
    link: &mut L,
    now: Millis,
    step: &mut Step,
) -> Option<u8>
    requires ready { E.ready e.old now.0 }
    /// - What is due at a moment is ticked, and each tick's sends are attempted, in order. Nothing is received. A tick
    ///   comes only where something is due, by the endpoint's own count of what is; it does something, and its step is
    ///   that of the endpoint's relation for ticks. It is stated in `Ticks.antt`, with what is due in
    ///   `teredo_node/Due.antt`.
    ///   Needs: the endpoint may be called at the moment.
    /// - See `tick_through`: `ticks`.
    ensures turn { TicksIfDue (λ s. E.ticks s now.0) (λ s. E.owing s now.0) e.old e.new (L.state link.old).told
        (L.state link.new).told step.old step.new result }
    /// See `turn`.
    ensures again { E.ready e.new now.0 }
    /// See `turn`.
    ensures receives { (L.state link.new).recv_faults ≡ (L.state link.old).recv_faults }
    /// See `turn`.
    ensures sends { SendFaults (L.state link.old).send_faults (L.state link.new).send_faults (unwrap_or result 0) }
    /// See `turn`.
    ensures places { (L.state link.new).place ≡ (L.state link.old).place }
    /// See `turn`.
    ensures asked { Stays (L.state link.old).openings (L.state link.new).openings }
{
    if !is_due(e, now) {
        return None;
    }
    e.on_tick(now, step);
    Some(send_all(link, step))
}

/// Does all that is due, one thing after another, until nothing is. Since each tick lessens what is due at its moment,
/// that comes to an end. The answer is how many attempts failed, and stops at the end of `u64`.
pub fn tick_through<E: Endpoint, L: Link>(
    e: &mut E,
    link: &mut L,
    now: Millis,
    step: &mut Step,
) -> u64
    requires ready { E.ready e.old now.0 }
    /// - After a tick less is due at its moment, so ticking at one moment ends, with nothing due. The step is that of
    ///   the last tick, or as before where there was none; the answer is how many attempts failed, up to the end of 64
    ///   bits.
    ///   Leaves open: when what is due next is due.
    /// - See `tick`: `turn`.
    ensures ticks { TicksThrough (λ s. E.ticks s now.0) (λ s. E.owing s now.0) e.old e.new (L.state link.old).told
        (L.state link.new).told step.old step.new result }
    /// See `tick`: `turn`.
    ensures again { E.ready e.new now.0 }
    /// See `tick`: `turn`.
    ensures receives { (L.state link.new).recv_faults ≡ (L.state link.old).recv_faults }
    /// See `tick`: `turn`.
    ensures sends { SendFaults (L.state link.old).send_faults (L.state link.new).send_faults result }
    /// See `tick`: `turn`.
    ensures places { (L.state link.new).place ≡ (L.state link.old).place }
    /// See `tick`: `turn`.
    ensures asked { Stays (L.state link.old).openings (L.state link.new).openings }
{
    let mut failures: u64 = 0;
    while let Some(failed) = tick(e, link, now, step) {
        failures = failures.saturating_add(u64::from(failed.count_ones()));
    }
    failures
}
