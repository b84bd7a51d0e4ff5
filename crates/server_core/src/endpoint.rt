//! The server as an endpoint of a link.
use crate::server::Server;
use td_base::{Ep, Millis, NoMemory, Side};
use teredo_node::{Endpoint, Fate, Step};

/// It answers by its table alone: it keeps nothing, wants no memory, and has nothing due.
/// - `answer`, `starved`, `ticked`, `told`: As an endpoint a server answers by its table, stays as it is, needs no
///   memory, and has nothing due.
impl Endpoint for Server {
    ghost use Rattle.std.specs.Prelude.{◌≡◌, refl, true, None};
    ghost use Rattle.std.proofs.Common.{◌∙◌};
    ghost use Rattle.server_core.specs.Endpoint.{MeetsRow, StaysIdle};

    const FRUGAL: bool = true;

    ghost FRUGAL = { true };

    ghost ready = { λ s now. Unit {0} };

    ghost stays = { λ old new. new ≡ old };

    ghost rule = { λ s now side from x step new. MeetsRow s side from x step new };

    ghost starves = { λ s now side from x. ⊥ };

    ghost ticks = { λ s now step new. StaysIdle s step new };

    ghost is_due = { λ s now due. due ≡ None };

    ghost owing = { λ s now. 0 };

    fn on_datagram(
        &mut self,
        _now: Millis,
        side: Side,
        from: Ep,
        bytes: &[u8],
        step: &mut Step,
    ) -> Result<(), NoMemory> {
        self.answer_into(side, from, bytes, step);
        Ok(())
    }

    fn on_tick(&mut self, _now: Millis, step: &mut Step) {
        step.reset(Fate::Idle);
    }

    fn due(&self, _now: Millis) -> Option<Millis> {
        None
    }

    ghost stays_so = { λ s. refl };

    ghost stays_on = { λ old mid new first second. second ∙ first };

    ghost ready_later = { λ s now later le early ready. tt };

    ghost ready_again = { λ old now side from bytes step new ready rule. tt };

    ghost ready_ticked = { λ old now step new ready ticks. tt };

    ghost frugal = { λ s now side from bytes frugal starves. starves };
}
