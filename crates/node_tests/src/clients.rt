//! A client at late calls, by its fates.
ghost use Rattle.std.specs.Prelude.{◌≤◌};
ghost use Rattle.client_core.specs.Client.{IsCallable};

use client_core::Client;
use qualify::Settings;
use rand_chacha::ChaCha20Rng;
use rand_core::SeedableRng;
use std::alloc::Global;
use std::test::Fail;
use td_base::{Ep, Ip4, Ip6, Millis, NoMemory, Policy, Side, put, put64};
use teredo_node::{Endpoint, Fate, Step};

const PRIMARY: Ip4 = Ip4([192, 0, 2, 1]);

const SECONDARY: Ip4 = Ip4([192, 0, 2, 2]);

const SETTINGS: Settings = Settings {
    inside: Ep {
        ip: Ip4([10, 0, 0, 2]),
        port: 4000,
    },
    primary: PRIMARY,
    secondary: SECONDARY,
    policy: Policy::Strict,
    low: 1_000_000,
    high: 1_000_000,
    random: false,
    cone_try: true,
};

// The first nonce that 32 zero bytes give.
const NONCE: u64 = 0xade0_b876_903d_f1a0;

/// A server's answer; the nonce stands at 4, and the origin is 198.51.100.7:40000.
const ANSWER: [u8; 117] = [
    0x00, 0x01, 0x00, 0x00, 0x01, 0x02, 0x03, 0x04, 0x05, 0x06, 0x07, 0x08, 0x00, 0x00, 0x00, 0x63,
    0xbf, 0x39, 0xcc, 0x9b, 0xf8, 0x60, 0x00, 0x00, 0x00, 0x00, 0x38, 0x3a, 0xff, 0xfe, 0x80, 0x00,
    0x00, 0x00, 0x00, 0x00, 0x00, 0x80, 0x00, 0xf2, 0x27, 0x3f, 0xff, 0xfd, 0xfe, 0xfe, 0x80, 0x00,
    0x00, 0x00, 0x00, 0x00, 0x00, 0x00, 0x00, 0x63, 0xbf, 0x39, 0xcc, 0x9b, 0xf8, 0x86, 0x00, 0x63,
    0x98, 0x00, 0x00, 0x00, 0x00, 0x00, 0x00, 0x00, 0x00, 0x00, 0x00, 0x00, 0x00, 0x03, 0x04, 0x40,
    0x40, 0xff, 0xff, 0xff, 0xff, 0xff, 0xff, 0xff, 0xff, 0x00, 0x00, 0x00, 0x00, 0x20, 0x01, 0x00,
    0x00, 0xc0, 0x00, 0x02, 0x01, 0x00, 0x00, 0x00, 0x00, 0x00, 0x00, 0x00, 0x00, 0x05, 0x01, 0x00,
    0x00, 0x00, 0x00, 0x05, 0x00,
];

/// The client's address: 2001:0:c000:201:8000:63bf:39cc:9bf8
const OWN: Ip6 = Ip6([
    0x20, 1, 0, 0, 192, 0, 2, 1, 0x80, 0, 0x63, 0xbf, 0x39, 0xcc, 0x9b, 0xf8,
]);

/// Another client of the same server: 2001:0:c000:201:0:63be:39cc:9bf7
const PEER: Ip6 = Ip6([
    0x20, 1, 0, 0, 192, 0, 2, 1, 0, 0, 0x63, 0xbe, 0x39, 0xcc, 0x9b, 0xf7,
]);

/// What the other client's address embeds.
const PEER_AT: Ep = Ep {
    ip: Ip4([198, 51, 100, 8]),
    port: 40001,
};

/// What a client is given: a tick, the answer to its first solicitation, a packet for the other client, a bubble of
/// that one.
#[derive(Clone, Copy)]
enum Given {
    Tick,
    Answer,
    Host,
    Peer,
}

/// When a client is given something, and what becomes of it.
#[derive(Clone, Copy)]
struct Row {
    at: u32,
    given: Given,
    fate: Fate,
}

fn at(at: u32, given: Given, fate: Fate) -> Row {
    Row { at, given, fate }
}

fn packet(src: Ip6, dst: Ip6, next: u8) -> [u8; 40] {
    let mut bytes = [0; 40];
    bytes[0] = 0x60;
    bytes[6] = next;
    put(&mut bytes, 8, &src.0);
    put(&mut bytes, 24, &dst.0);
    bytes
}

/// The fate of what a client is given.
fn give(client: &mut Client, now: Millis, given: Given, step: &mut Step) -> Result<Fate, NoMemory>
    requires { IsCallable client.old now.0 }
    ensures { client.new.peers.moment ≤ now.0 }
{
    match given {
        Given::Tick => client.on_tick(now, step),
        Given::Answer => {
            let mut bytes = ANSWER;
            put64(&mut bytes, 4, NONCE);
            let from = Ep::of_server(SECONDARY);
            client.on_datagram(now, Side::Primary, from, &bytes, step)?;
        }
        Given::Host => client.on_host(now, &packet(OWN, PEER, 17), step)?,
        Given::Peer => {
            client.on_datagram(now, Side::Primary, PEER_AT, &packet(PEER, OWN, 59), step)?
        }
    }
    Ok(step.fate())
}

/// Whether a client that starts at 0 has these fates.
fn plays(alloc: Global, rows: &[Row]) -> Result<bool, NoMemory> {
    let mut client = Client::new(alloc, SETTINGS, ChaCha20Rng::from_seed([0; 32]), Millis(0));
    let mut step = Step::new();
    let mut now = 0;
    for row in rows {
        now = u64::from(row.at).max(now);
        if give(&mut client, Millis(now), row.given, &mut step)? != row.fate {
            return Ok(false);
        }
    }
    Ok(true)
}

#[test]
fn late_calls(rt: HostRuntime) -> Result<(), Fail> {
    let start = at(0, Given::Tick, Fate::RsCone);
    let qualified = at(1, Given::Answer, Fate::QualifiedCone);
    let first = at(1_000, Given::Host, Fate::Queued);
    let second = at(2_999, Given::Host, Fate::Queued);
    let waits = [
        start,
        qualified,
        first,
        second,
        at(302_500, Given::Tick, Fate::Bubbles),
    ];
    let ends = [
        start,
        qualified,
        first,
        second,
        at(302_999, Given::Tick, Fate::Idle),
    ];
    let bars = [
        start,
        qualified,
        first,
        at(2_999, Given::Tick, Fate::Idle),
        at(3_000, Given::Tick, Fate::Bubbles),
        at(5_000, Given::Tick, Fate::Bubbles),
        at(7_000, Given::Tick, Fate::Bubbles),
        at(9_000, Given::Tick, Fate::GiveUp),
        at(9_001, Given::Host, Fate::Barred),
        at(300_999, Given::Host, Fate::Barred),
        at(301_000, Given::Host, Fate::Queued),
    ];
    let meets = [
        start,
        qualified,
        first,
        at(1_100, Given::Peer, Fate::Rule3Bubble),
        at(31_099, Given::Host, Fate::Sent),
        at(31_100, Given::Host, Fate::Queued),
        at(331_099, Given::Peer, Fate::Rule1Bubble),
    ];
    for rows in [&waits[..], &ends[..], &bars[..], &meets[..]] {
        assert!(rt; plays(rt.alloc(), rows)? == true);
    }
    Ok(())
}
