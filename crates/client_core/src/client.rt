//! A client.
ghost use Rattle.std.specs.Prelude.{◌≡◌, ◌<◌, ℕ, List, [], is_some};
ghost use Rattle.td_base.specs.declared.millis.TheConstants.{CLOCK_END_MS};
ghost use Rattle.teredo_node.specs.Journal.{Journal, from_six};
ghost use Rattle.qualify.specs.Qualification.{qualification};
ghost use Rattle.qualify.specs.Qualifier.{IsSettings};
ghost use Rattle.qualify.specs.Solicitations.{is_qualified};
ghost use Rattle.client_core.specs.Client.{settings_of, generator_of, callable_from, ClientStandsFor, IsCallable, Does};
ghost use Rattle.client_rules.specs.Journals.{journal_since};

use peer_list::Peers;
use qualify::{Phase, Qualifier, Settings};
use rand_chacha::ChaCha20Rng;
use std::alloc::Global;
use td_base::{Ip6, Millis};
use teredo_node::{Fate, Step};

/// A Teredo client. All that it keeps is its qualification, its peers, and the generator of its random words.
#[derive(Drop)]
pub struct Client {
    pub(crate) qualifier: Qualifier,
    pub(crate) peers: Peers,
    pub(crate) rng: ChaCha20Rng,
}

// No clause sees a field that nothing reads, such as a journal: so it is its parts, and no byte more.
const _: () = prove_eq!(
    size_of::<Client>(),
    size_of::<Qualifier>() + size_of::<Peers>() + size_of::<ChaCha20Rng>()
);

impl Client {
    /// A client that starts now. Its random words are those of the generator, from its place on.
    pub fn new(alloc: Global, s: Settings, rng: ChaCha20Rng, now: Millis) -> Client
        requires settings { IsSettings s }
        requires early { now.0 < CLOCK_END_MS }
        /// A new client stands for the journal without entries, and one that starts anew too; the words go on.
        /// Needs: times between refreshes in order, the shortest at least 1,000 ms; a moment of a clock.
        ensures stands { ClientStandsFor result (journal_since now.0 []) }
        /// See `stands`.
        ensures settings { settings_of result ≡ s }
        /// See `stands`.
        ensures words { generator_of result ≡ rng }
        /// See `stands`.
        ensures clock { callable_from result ≡ 0 }
    {
        Client {
            qualifier: Qualifier::start(s, now),
            peers: Peers::new(alloc),
            rng,
        }
    }

    /// Starts anew: the first phase begins, and no peer is known. The random words go on where they were.
    pub fn restart(&mut self, now: Millis)
        requires early { now.0 < CLOCK_END_MS }
        /// See `Client::new`: `stands`.
        ensures stands { ClientStandsFor self.new (journal_since now.0 []) }
        /// See `Client::new`: `stands`.
        ensures settings { settings_of self.new ≡ settings_of self.old }
        /// See `Client::new`: `stands`.
        ensures words { generator_of self.new ≡ generator_of self.old }
        /// See `Client::new`: `stands`.
        ensures clock { callable_from self.new ≡ 0 }
    {
        self.qualifier = Qualifier::start(*self.qualifier.settings(), now);
        self.peers.clear();
    }

    /// Takes a packet of the IPv6 side: with any such a client does nothing.
    pub fn on_six(&self, now: Millis, step: &mut Step)
        requires callable { IsCallable self.now now.0 }
        /// See `Client::on_host`: `done`.
        ensures done { (bytes : List ℕ) → Does self.now now.0 (from_six bytes) step.new self.now }
    {
        step.reset(Fate::Idle);
    }

    /// Its address, exactly while it is qualified.
    pub fn address(&self) -> Option<Ip6>
        /// Address and phase are those of the journal. This holds for every journal that it stands for.
        ensures value { (j : Journal) → ClientStandsFor self.now j → result ≡ (qualification (settings_of self.now) j).address }
        /// See `value`.
        ensures qualified { (j : Journal) → ClientStandsFor self.now j → is_some result ≡ is_qualified (qualification (settings_of self.now) j).phase }
    {
        self.qualifier.address()
    }

    /// Its phase.
    pub fn phase(&self) -> Phase
        /// See `Client::address`: `value`.
        ensures { (j : Journal) → ClientStandsFor self.now j → result ≡ (qualification (settings_of self.now) j).phase }
    {
        self.qualifier.phase()
    }
}
