//! Bubbles: what a relay sends to open the way to a client.
ghost use Rattle.std.specs.Prelude.{◌≡◌, ◌∷◌, []};
ghost use Rattle.teredo_node.specs.Sends.{sending};
ghost use Rattle.relay_rules.specs.Transmission.{bubble_to};
ghost use Rattle.relay_core.specs.Relay.{relay_settings_of};

use crate::relay::Relay;
use bubble::{BUBBLE, make_bubble};
use td_base::{Ep, Ip6, Side};
use teredo_addr::server_of;
use teredo_node::{Fate, Step};

impl Relay {
    /// Begins a step with this fate by a try at a client: a bubble through its server.
    #[tactic(auto, unfolding(relay_rules::specs::Transmission::bubble_to))]
    pub(crate) fn send_bubble(&self, who: Ip6, fate: Fate, step: &mut Step)
        ensures { step.new ≡ sending fate (bubble_to (relay_settings_of self.now) who ∷ []) }
    {
        let mut bytes = [0; BUBBLE];
        make_bubble(self.six, who, &mut bytes);
        step.reset(fate);
        step.push(Side::Primary, Ep::of_server(server_of(who)), &bytes);
    }
}
