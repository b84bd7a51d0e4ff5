//! What a relay tells of an address.
ghost use Rattle.std.specs.Prelude.{◌≡◌, ◌≤◌, List, option_map, unwrap_or, is_some};
ghost use Rattle.teredo_node.specs.Journal.{Entry};
ghost use Rattle.peer_list.specs.Mentions.{latest_peer};
ghost use Rattle.peer_list.specs.Listed.{is_listed, has_room};
ghost use Rattle.peer_list.specs.Peers.{no_peer, known};
ghost use Rattle.relay_rules.specs.Bearings.{relay_mentions};
ghost use Rattle.relay_core.specs.Relay.{relay_callable_from, RelayStandsFor};

use crate::relay::Relay;
use peer_list::Peer;
use td_base::{Ip6, Millis};

impl Relay {
    /// What is known of an address, if it is listed: nothing is known of another one.
    pub fn peer(&self, now: Millis, who: Ip6) -> Option<&Peer>
        requires clock { relay_callable_from self.now ≤ now.0 }
        /// What a relay tells of an address is what each journal says that it stands for. It is stated in
        /// `peer_list/Peers.antt`, `peer_list/Listed.antt`, over `relay_rules/Bearings.antt`.
        /// Needs: no moment before that of an earlier call.
        ensures known { (j : List Entry) → RelayStandsFor self.now j
            → unwrap_or (option_map (λ peer. peer.now) result) no_peer ≡ known (relay_mentions j) now.0 who }
        /// See `known`.
        ensures listed { (j : List Entry) → RelayStandsFor self.now j
            → is_some (option_map (λ peer. peer.now) result) ≡ is_listed who now.0 (relay_mentions j) }
    {
        self.peers.find(now, who)
    }

    /// The peer of which the relay changed last what it knows: whom it listed, touched or gave up, since it started.
    pub fn latest_peer(&self) -> Option<Ip6>
        /// The latest peer of a relay is the one that its journal's latest entry concerns of those that concern one. It is stated
        /// in `peer_list/Mentions.antt`.
        /// Leaves open: whether that peer is still listed.
        ensures { (j : List Entry) → RelayStandsFor self.now j → result ≡ latest_peer (relay_mentions j) }
    {
        self.peers.latest()
    }

    /// Whether an address is listed, or may still be.
    pub fn has_room(&self, now: Millis, who: Ip6) -> bool
        requires clock { relay_callable_from self.now ≤ now.0 }
        /// See `Relay::peer`: `known`.
        ensures { (j : List Entry) → RelayStandsFor self.now j → result ≡ has_room (relay_mentions j) now.0 who }
    {
        self.peers.has_room(now, who)
    }
}
