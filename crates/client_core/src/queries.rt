//! What a client tells of an address.
ghost use Rattle.std.specs.Prelude.{◌≡◌, ◌≤◌, length, option_map, unwrap_or, is_some};
ghost use Rattle.teredo_node.specs.Journal.{Journal};
ghost use Rattle.peer_list.specs.Mentions.{latest_peer};
ghost use Rattle.peer_list.specs.Listed.{is_listed, listed, has_room};
ghost use Rattle.peer_list.specs.Peers.{no_peer, known};
ghost use Rattle.client_rules.specs.Bearings.{mentions};
ghost use Rattle.client_core.specs.Client.{callable_from, ClientStandsFor};

use crate::client::Client;
use peer_list::{PEERS_MAX, Peer};
use td_base::{Ip6, Millis};

impl Client {
    /// What is known of an address, if it is listed: nothing is known of another one.
    pub fn peer(&self, now: Millis, who: Ip6) -> Option<&Peer>
        requires clock { callable_from self.now ≤ now.0 }
        /// What a client tells of an address is what each journal says that it stands for, and so is how many it lists.
        /// It is stated in `peer_list/Peers.antt`, `peer_list/Listed.antt`, over `client_rules/Bearings.antt`.
        /// Needs: no moment before that of an earlier call.
        ensures known { (j : Journal) → ClientStandsFor self.now j
            → unwrap_or (option_map (λ peer. peer.now) result) no_peer ≡ known (mentions j.entries) now.0 who }
        /// See `known`.
        ensures listed { (j : Journal) → ClientStandsFor self.now j
            → is_some (option_map (λ peer. peer.now) result) ≡ is_listed who now.0 (mentions j.entries) }
    {
        self.peers.find(now, who)
    }

    /// Whether an address is listed, or may still be.
    pub fn has_room(&self, now: Millis, who: Ip6) -> bool
        requires clock { callable_from self.now ≤ now.0 }
        /// See `Client::peer`: `known`.
        ensures { (j : Journal) → ClientStandsFor self.now j → result ≡ has_room (mentions j.entries) now.0 who }
    {
        self.peers.has_room(now, who)
    }

    /// The peer of which the client changed last what it knows: whom it listed, touched, held a packet of, or gave up, since
    /// it started or its address changed.
    pub fn latest_peer(&self) -> Option<Ip6>
        /// The latest peer of a client is the one that its journal's latest entry concerns of those that concern one. It is
        /// stated in `peer_list/Mentions.antt`.
        /// Leaves open: whether that peer is still listed.
        ensures { (j : Journal) → ClientStandsFor self.now j → result ≡ latest_peer (mentions j.entries) }
    {
        self.peers.latest()
    }

    /// How many addresses are listed.
    pub fn peers(&self, now: Millis) -> usize
        requires clock { callable_from self.now ≤ now.0 }
        /// See `Client::peer`: `known`.
        ensures count { (j : Journal) → ClientStandsFor self.now j → result ≡ length (listed (mentions j.entries) now.0) }
        /// See `Client::peer`: `known`.
        ensures most { result ≤ PEERS_MAX }
    {
        self.peers.count(now)
    }
}
