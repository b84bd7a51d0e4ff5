//! Who reaches whom of a client and a host of the IPv6 Internet, whose relay stands between them.
ghost use Rattle.std.specs.Prelude.{◌≡◌, ◌≤◌, ◌+◌, ◌&&◌, ◌||◌, not, List};
ghost use Rattle.teredo_node.specs.Journal.{Journal, Entry};
ghost use Rattle.teredo_addr.specs.Teredo.{has_cone};
ghost use Rattle.peer_list.specs.Peers.{known};
ghost use Rattle.peer_list.specs.Judged.{is_barred};
ghost use Rattle.peer_list.specs.Listed.{has_room, listed};
ghost use Rattle.client_rules.specs.Bearings.{mentions};
ghost use Rattle.client_core.specs.Client.{callable_from, ClientStandsFor};
ghost use Rattle.relay_rules.specs.Bearings.{relay_mentions};
ghost use Rattle.relay_core.specs.Relay.{relay_callable_from, RelayStandsFor};
ghost use Rattle.history.specs.Full.{Full};
ghost use Rattle.legal.specs.Lab.{Draws};
ghost use Rattle.theory_reaching.specs.Conditions.{places_for, has_room_for_both};
ghost use Rattle.theory_reaching.specs.ThroughRelay.{relayed};
ghost use Rattle.theory_reaching.specs.ToNative.{to_native_row};
ghost use Rattle.theory_reaching.specs.FromNative.{from_native_row};
ghost use Rattle.world.specs.World.{StandsFor, lab_in};
ghost use Rattle.reach_query.specs.Hosts.{IsClientHere, IsRelayHere};
ghost use Rattle.reach_query.specs.Asked.{AreAlike};

use crate::hosts::{ClientHere, RelayHere, is_let_in, server_endpoint};
use crate::known;
use crate::speaking::speaks_to;
use client_core::Client;
use peer_list::PEERS_MAX;
use relay_core::Relay;
use td_base::{Ip6, Millis};
use teredo_addr::{embedded, has_cone};
use theory_reaching::{Reach, Relayed};
use topology::NativeNode;
use world::World;

/// How many places a client wants for a peer: one where it isn't listed.
fn places_for(client: &Client, now: Millis, who: Ip6) -> usize
    requires clock { callable_from client.now ≤ now.0 }
    ensures few { result ≤ 1 }
    ensures places { (j : Journal) → ClientStandsFor client.now j → result ≡ places_for (mentions j.entries) now.0 who }
{
    if client.peer(now, who).is_some() {
        0
    } else {
        1
    }
}

/// Whether a client has room for two peers: for those of them that aren't listed, beside all that are. All are counted, so
/// it is looked at only where the relay must ask.
fn has_room_for_both(asks: bool, client: &Client, now: Millis, who: Ip6, other: Ip6) -> bool
    requires clock { callable_from client.now ≤ now.0 }
    ensures { (j : Journal) → ClientStandsFor client.now j → result ≡ (not asks || has_room_for_both (mentions j.entries) now.0 who other) }
{
    if !asks {
        return true;
    }
    let wanted = places_for(client, now, who) + places_for(client, now, other);
    client.peers(now) + wanted <= PEERS_MAX
}

/// Whether a native host and a client have room for each other: the client for the host, and the relay for the client.
fn have_room(now: Millis, client: &Client, relay: &Relay, host: Ip6, own: Ip6) -> bool
    requires client { callable_from client.now ≤ now.0 }
    requires relay { relay_callable_from relay.now ≤ now.0 }
    ensures { (j : Journal) (k : List Entry) → ClientStandsFor client.now j → RelayStandsFor relay.now k
        → result ≡ (has_room (mentions j.entries) now.0 host && has_room (relay_mentions k) now.0 own) }
{
    if !client.has_room(now, host) {
        return false;
    }
    relay.has_room(now, own)
}

/// Whether a relay asks in vain: bubbles are barred, at the relay for the client, or at the client for the relay's own
/// address. It is looked at only where the relay must ask.
fn are_bubbles_barred(
    asks: bool,
    now: Millis,
    client: &Client,
    relay: &Relay,
    six: Ip6,
    own: Ip6,
) -> bool
    requires client { callable_from client.now ≤ now.0 }
    requires relay { relay_callable_from relay.now ≤ now.0 }
    ensures { (j : Journal) (k : List Entry) → ClientStandsFor client.now j → RelayStandsFor relay.now k
        → result ≡ (asks && (is_barred now.0 (known (relay_mentions k) now.0 own) || is_barred now.0 (known (mentions j.entries) now.0 six))) }
{
    if !asks {
        return false;
    }
    if known::is_barred(relay.peer(now, own), now) {
        return true;
    }
    known::is_barred(client.peer(now, six), now)
}

/// Whether a relay must ask for a client, by whether it trusts it: it sends it nothing before it heard it.
fn must_ask(trusts: bool, own: Ip6) -> bool
    ensures { result ≡ (not trusts && not (has_cone own)) }
{
    if trusts {
        return false;
    }
    !has_cone(own)
}

/// What the tables of words ask of a client, a native host and its relay, as far as they look.
fn relayed(world: &World<'_>, a: ClientHere<'_>, host: NativeNode, by: RelayHere<'_>) -> Relayed
    requires client { callable_from a.client.now ≤ world.now.moment }
    requires relay { relay_callable_from by.relay.now ≤ world.now.moment }
    ensures { (d : Draws) (H : List Full) → StandsFor d world.now H → IsClientHere (lab_in d world.now) H a.entry
        → IsRelayHere (lab_in d world.now) H host.relay by.entry
        → AreAlike result (relayed (lab_in d world.now) H a.entry.number a.entry.row host by.entry.row) }
{
    let now = world.moment();
    let own = a.address();
    let on = a.is_on();
    let settled = a.is_settled(world);
    let speaks = speaks_to(world, a, own, by.row.at);
    let server = server_endpoint(world.topology(), a.row.server);
    let speaks_server = speaks_to(world, a, own, server);
    let host_known = a.client.peer(now, host.six);
    let client_known = by.relay.peer(now, own);
    let fresh = known::is_fresh(host_known, now);
    let trusted = known::is_trusted_at(host_known, by.row.at);
    let listed = client_known.is_some();
    let trusts = known::is_trusted(client_known);
    let let_in = is_let_in(world, trusts, by.row.at, embedded(own), a.number);
    let asks = must_ask(trusts, own);
    let barred = known::is_barred(host_known, now);
    let bubble_barred = are_bubbles_barred(asks, now, a.client, by.relay, by.row.six, own);
    let room = have_room(now, a.client, by.relay, host.six, own);
    let room_for_both = has_room_for_both(asks, a.client, now, host.six, by.row.six);
    let holds_most = known::holds_most(host_known);
    let relay_keeps = known::keeps_packets(client_known);
    Relayed {
        on,
        settled,
        speaks,
        speaks_server,
        fresh,
        trusted,
        listed,
        trusts,
        let_in,
        asks,
        barred,
        bubble_barred,
        room,
        room_for_both,
        holds_most,
        relay_keeps,
    }
}

/// The word on packets from a client to a native host.
pub fn relayed_word_to(
    world: &World<'_>,
    a: ClientHere<'_>,
    host: NativeNode,
    by: RelayHere<'_>,
) -> Reach
    requires client { callable_from a.client.now ≤ world.now.moment }
    requires relay { relay_callable_from by.relay.now ≤ world.now.moment }
    ensures { (d : Draws) (H : List Full) → StandsFor d world.now H → IsClientHere (lab_in d world.now) H a.entry
        → IsRelayHere (lab_in d world.now) H host.relay by.entry
        → result ≡ to_native_row (relayed (lab_in d world.now) H a.entry.number a.entry.row host by.entry.row) }
{
    if !a.is_on() {
        return Reach::Off;
    }
    relayed(world, a, host, by).word_to_native()
}

/// The word on packets from a native host to a client.
pub fn relayed_word_from(
    world: &World<'_>,
    host: NativeNode,
    b: ClientHere<'_>,
    by: RelayHere<'_>,
) -> Reach
    requires client { callable_from b.client.now ≤ world.now.moment }
    requires relay { relay_callable_from by.relay.now ≤ world.now.moment }
    ensures { (d : Draws) (H : List Full) → StandsFor d world.now H → IsClientHere (lab_in d world.now) H b.entry
        → IsRelayHere (lab_in d world.now) H host.relay by.entry
        → result ≡ from_native_row (relayed (lab_in d world.now) H b.entry.number b.entry.row host by.entry.row) }
{
    if !b.is_on() {
        return Reach::Away;
    }
    relayed(world, b, host, by).word_from_native()
}
