//! The relay as an endpoint of a link.
use crate::relay::Relay;
use td_base::{Ep, Millis, NoMemory, Side};
use teredo_node::{Endpoint, Step};

/// A relay has one endpoint: it answers by its table of datagrams, and memory is wanting for none. At a tick it does
/// the first thing that is due.
/// - `answer`: With a datagram a relay does what its table says. For every journal that it stands for the step is that
///   of the next entry, and it then stands for the journal with that entry. It is stated in `Relay.antt`, with the
///   table in `relay_rules/Reception.antt`.
///   Needs: a moment of a clock, none before that of an earlier call.
///   Leaves open: who sent it.
/// - `starved`: Memory runs out for no datagram. No moment and no datagram is among those at which memory may be
///   wanting.
/// - `ticked`, `idle`, `less`: A tick does what is due first, or nothing. It does what is due for the peer that is due
///   first, in a late call too; less is due after it.
///   Leaves open: that anybody ticks.
/// - `told`, `first`: A relay says when something is due: nothing is before, and something is then, or now where it is
///   past. What is due are packets that wait for peers whose next try is due.
impl Endpoint for Relay {
    ghost use Rattle.std.specs.Prelude.{◌≡◌, false, refl};
    ghost use Rattle.std.proofs.Common.{◌∙◌};
    ghost use Rattle.std.proofs.Math.Nat.{le_trans};
    ghost use Rattle.teredo_node.specs.Journal.{arrived, ticked};
    ghost use Rattle.relay_core.specs.Relay.{IsCallableRelay, RelayDoes, RelayAsBefore};
    ghost use Rattle.relay_core.specs.Endpoint.{IsRelayDue, relay_owing};

    const FRUGAL: bool = false;

    ghost FRUGAL = { false };

    ghost ready = { λ r now. IsCallableRelay r now };

    ghost stays = { λ old new. RelayAsBefore old new };

    ghost rule = { λ r now side from x step new. RelayDoes r now (arrived from x) step new };

    ghost starves = { λ r now side from x. ⊥ };

    ghost ticks = { λ r now step new. RelayDoes r now ticked step new };

    ghost is_due = { λ r now due. IsRelayDue r now due };

    ghost owing = { λ r now. relay_owing r now };

    fn on_datagram(
        &mut self,
        now: Millis,
        _side: Side,
        from: Ep,
        bytes: &[u8],
        step: &mut Step,
    ) -> Result<(), NoMemory> {
        self.receive(now, from, bytes, step);
        Ok(())
    }

    fn on_tick(&mut self, now: Millis, step: &mut Step) {
        self.tick(now, step);
    }

    fn due(&self, now: Millis) -> Option<Millis> {
        self.next_due(now)
    }

    ghost stays_so = { λ r. record { stands = λ j h. h; settings = refl } };

    ghost stays_on = { λ old mid new first second. record { stands = λ j h. second.stands j (first.stands j h); settings = second.settings ∙ first.settings } };

    ghost ready_later = { λ r now later le early ready. record { clock = le_trans ready.clock le; early = early } };

    ghost ready_again = { λ old now side from bytes step new ready done. record { clock = done.clock; early = ready.early } };

    ghost ready_ticked = { λ old now step new ready done. record { clock = done.clock; early = ready.early } };

    ghost frugal = { λ r now side from bytes never starved. starved };
}
