//! What a client or a relay knows of an address, by one look at its list: of an address that isn't listed nothing.
ghost use Rattle.std.specs.Prelude.{◌≡◌, length, option_map, is_some};
ghost use Rattle.peer_list.specs.Judged.{is_fresh, is_trusted_at, is_barred, holds_most};
ghost use Rattle.theory_reaching.specs.Conditions.{keeps_packets};
ghost use Rattle.reach_query.specs.Looked.{known_of};

use peer_list::Peer;
use td_base::{Ep, Millis};

/// Whether packets go to it without a try.
#[tactic(auto, unfolding(peer_list::specs::Judged::is_fresh))]
pub fn is_fresh(peer: Option<&Peer>, now: Millis) -> bool
    ensures { result ≡ is_fresh now.0 (known_of (option_map (λ peer. peer.now) peer.entry)) }
{
    match peer {
        None => false,
        Some(peer) => peer.is_fresh(now),
    }
}

/// Whether it is trusted at this very endpoint, port and all.
#[tactic(auto, unfolding(peer_list::specs::Judged::is_trusted_at))]
pub fn is_trusted_at(peer: Option<&Peer>, from: Ep) -> bool
    ensures { result ≡ is_trusted_at from (known_of (option_map (λ peer. peer.now) peer.entry)) }
{
    match peer {
        None => false,
        Some(peer) => peer.is_trusted_at(from),
    }
}

/// Whether it is trusted anywhere.
pub fn is_trusted(peer: Option<&Peer>) -> bool
    ensures { result ≡ is_some (known_of (option_map (λ peer. peer.now) peer.entry)).trusted }
{
    match peer {
        None => false,
        Some(peer) => peer.trusted().is_some(),
    }
}

/// Whether it may not be tried now.
#[tactic(auto, unfolding(peer_list::specs::Judged::is_barred, peer_list::specs::Judged::is_spent))]
pub fn is_barred(peer: Option<&Peer>, now: Millis) -> bool
    ensures { result ≡ is_barred now.0 (known_of (option_map (λ peer. peer.now) peer.entry)) }
{
    match peer {
        None => false,
        Some(peer) => peer.is_barred(now),
    }
}

/// Whether no further packet from it may be held.
#[tactic(auto, unfolding(peer_list::specs::Judged::holds_most))]
pub fn holds_most(peer: Option<&Peer>) -> bool
    ensures { result ≡ holds_most (known_of (option_map (λ peer. peer.now) peer.entry)) }
{
    match peer {
        None => false,
        Some(peer) => peer.holds_most(),
    }
}

/// Whether packets wait for it.
pub fn keeps_packets(peer: Option<&Peer>) -> bool
    ensures { result ≡ keeps_packets (known_of (option_map (λ peer. peer.now) peer.entry)) }
{
    match peer {
        None => false,
        Some(peer) => !peer.waiting().is_empty(),
    }
}

/// How many packets wait for it.
pub fn waiting(peer: Option<&Peer>) -> usize
    ensures { result ≡ length (known_of (option_map (λ peer. peer.now) peer.entry)).waiting }
{
    match peer {
        None => 0,
        Some(peer) => peer.waiting().len(),
    }
}
