//! A relay.
ghost use Rattle.std.specs.Prelude.{◌≡◌, ℕ, List, []};
ghost use Rattle.teredo_node.specs.Journal.{given};
ghost use Rattle.relay_core.specs.Relay.{relay_settings_of, relay_callable_from, RelayStandsFor, IsCallableRelay, RelayDoes};

use peer_list::Peers;
use std::alloc::Global;
use td_base::{Ep, Ip6, Millis, Policy};
use teredo_node::{Fate, Step};

/// A Teredo relay. All that it keeps is how it is set up, and its peers.
#[derive(Drop)]
pub struct Relay {
    pub(crate) at: Ep,
    pub(crate) six: Ip6,
    pub(crate) policy: Policy,
    pub(crate) served: Vec<Ip6>,
    pub(crate) peers: Peers,
}

// No clause sees a field that nothing reads, such as a journal: so it is its parts, and no byte more.
const _: () = prove_eq!(
    size_of::<Relay>(),
    size_of::<(Ep, Ip6, Policy, Vec<Ip6>)>() + size_of::<Peers>()
);

impl Relay {
    /// A relay at an endpoint, with an IPv6 address of its own, that serves these natives.
    pub fn new(alloc: Global, at: Ep, six: Ip6, policy: Policy, served: Vec<Ip6>) -> Relay
        /// - A new relay stands for the journal without entries, and one that starts anew too; how it is set up stays.
        ///   The natives that it serves are those of the list that it was given.
        /// - See `Relay::restart`: `stands`.
        ensures stands { RelayStandsFor result [] }
        /// See `stands`.
        ensures settings { relay_settings_of result ≡ record { at = at; six = six; policy = policy; served = served.items } }
        /// See `stands`.
        ensures clock { relay_callable_from result ≡ 0 }
    {
        Relay {
            at,
            six,
            policy,
            served,
            peers: Peers::new(alloc),
        }
    }

    /// Takes a packet of a host, with which a relay does nothing, since it has none.
    pub fn on_host(&self, now: Millis, step: &mut Step)
        requires callable { IsCallableRelay self.now now.0 }
        /// See `Relay::on_six`: `done`.
        ensures done { (bytes : List ℕ) → RelayDoes self.now now.0 (given bytes) step.new self.now }
    {
        step.reset(Fate::Idle);
    }

    /// Starts anew: no peer is known.
    pub fn restart(&mut self)
        /// - Of an address with the cone bit it keeps no tries, and nothing waits for it. This holds at each moment
        ///   from the relay's last call on, whatever the journal.
        /// - See `Relay::new`: `stands`.
        ensures stands { RelayStandsFor self.new [] }
        /// See `Relay::new`: `stands`.
        ensures settings { relay_settings_of self.new ≡ relay_settings_of self.old }
        /// See `Relay::new`: `stands`.
        ensures clock { relay_callable_from self.new ≡ 0 }
    {
        self.peers.clear();
    }
}
