//! The client as an endpoint of a link.
use crate::client::Client;
use td_base::{Ep, Millis, NoMemory, Side};
use teredo_node::{Endpoint, Step};

/// A client has one endpoint: it answers by its table of datagrams, and memory may be wanting where a packet is to be
/// held or a source to be listed. At a tick it does the first thing that is due.
/// - `answer`: With a datagram a client does what its table says. For every journal that it stands for the step is that
///   of the next entry, and it then stands for the journal with that entry; the words drawn are the next ones. It is
///   stated in `Client.antt`, with the table in `client_rules/Reception.antt`.
///   Needs: a moment of a clock, none before that of an earlier call.
///   Leaves open: who sent it.
/// - `starved`: Memory may run out for a datagram only where its packet is to be held, or its line lists a source that
///   isn't listed. The lines are `held_test` and `held`; `indirect`, `rule3` and `rule3_bubble`. It is stated in
///   `Client.antt`, over `client_rules/TakenPlaces.antt`.
/// - `as_before`, `again`, `untouched`: After memory ran out the client is as before, and the step untouched. It stands
///   for each journal that it stood for, at each moment from the call on, and draws the same words next.
/// - `ticked`, `idle`, `less`: A tick does the first thing that is due, or nothing. The phase or the refresh comes
///   first, then the peer that is due first, in a late call too; less is due after it.
///   Leaves open: that anybody ticks.
/// - `told`, `first`: A client says when something is due: nothing is before, and something is then, or now where it is
///   past. What is due are the phase or the refresh, and packets that wait for peers whose next try is due.
impl Endpoint for Client {
    ghost use Rattle.std.specs.Prelude.{◌≡◌, false, refl};
    ghost use Rattle.std.proofs.Common.{◌∙◌};
    ghost use Rattle.std.proofs.Math.Nat.{le_trans};
    ghost use Rattle.teredo_node.specs.Journal.{arrived, ticked};
    ghost use Rattle.client_core.specs.Client.{IsCallable, Does, AsBefore, WantsPlace};
    ghost use Rattle.client_core.specs.Endpoint.{IsClientDue, owing};

    const FRUGAL: bool = false;

    ghost FRUGAL = { false };

    ghost ready = { λ c now. IsCallable c now };

    ghost stays = { λ old new. AsBefore old new };

    ghost rule = { λ c now side from x step new. Does c now (arrived from x) step new };

    ghost starves = { λ c now side from x. WantsPlace c now from x };

    ghost ticks = { λ c now step new. Does c now ticked step new };

    ghost is_due = { λ c now due. IsClientDue c now due };

    ghost owing = { λ c now. owing c now };

    fn on_datagram(
        &mut self,
        now: Millis,
        _side: Side,
        from: Ep,
        bytes: &[u8],
        step: &mut Step,
    ) -> Result<(), NoMemory> {
        self.receive(now, from, bytes, step)
    }

    fn on_tick(&mut self, now: Millis, step: &mut Step) {
        self.tick(now, step);
    }

    fn due(&self, now: Millis) -> Option<Millis> {
        self.next_due(now)
    }

    ghost stays_so = { λ c. record { stands = λ j h. h; words = refl; settings = refl } };

    ghost stays_on = { λ old mid new first second. record {
      stands = λ j h. second.stands j (first.stands j h);
      words = second.words ∙ first.words;
      settings = second.settings ∙ first.settings;
    } };

    ghost ready_later = { λ c now later le early ready. record { clock = le_trans ready.clock le; early = early } };

    ghost ready_again = { λ old now side from bytes step new ready done. record { clock = done.clock; early = ready.early } };

    ghost ready_ticked = { λ old now step new ready done. record { clock = done.clock; early = ready.early } };

    ghost frugal = { λ c now side from bytes never starved. Prim.cc };
}
