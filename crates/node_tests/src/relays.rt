//! A relay at late calls, by its fates.
ghost use Rattle.std.specs.Prelude.{◌≤◌};
ghost use Rattle.relay_core.specs.Relay.{IsCallableRelay};

use relay_core::Relay;
use std::alloc::Global;
use std::test::Fail;
use td_base::{Ep, Ip4, Ip6, Millis, NoMemory, Policy, Side, put};
use teredo_node::{Endpoint, Fate, Step};

/// The relay's endpoint.
const AT: Ep = Ep {
    ip: Ip4([203, 0, 113, 9]),
    port: 3545,
};

/// The relay's own address: 2001:db8::9
const OWN: Ip6 = Ip6([0x20, 1, 0x0d, 0xb8, 0, 0, 0, 0, 0, 0, 0, 0, 0, 0, 0, 9]);

/// A native that it serves: 2001:db8::1
const NATIVE: Ip6 = Ip6([0x20, 1, 0x0d, 0xb8, 0, 0, 0, 0, 0, 0, 0, 0, 0, 0, 0, 1]);

/// A client: 2001:0:c000:201:0:63be:39cc:9bf7
const CLIENT: Ip6 = Ip6([
    0x20, 1, 0, 0, 192, 0, 2, 1, 0, 0, 0x63, 0xbe, 0x39, 0xcc, 0x9b, 0xf7,
]);

/// A client behind a cone NAT: 2001:0:c000:201:8000:63be:39cc:9bf7
const CONE: Ip6 = Ip6([
    0x20, 1, 0, 0, 192, 0, 2, 1, 0x80, 0, 0x63, 0xbe, 0x39, 0xcc, 0x9b, 0xf7,
]);

/// What both clients' addresses embed.
const CLIENT_AT: Ep = Ep {
    ip: Ip4([198, 51, 100, 8]),
    port: 40001,
};

/// What a relay is given: a tick, a native's packet, and by datagram a client's bubble, its packet for that native, and
/// its packet for the relay.
#[derive(Clone, Copy)]
enum Given {
    Tick,
    Six(Ip6),
    Bubble(Ip6),
    Packet(Ip6),
    Stray(Ip6),
}

/// When a relay is given something, and what becomes of it.
#[derive(Clone, Copy)]
struct Row {
    at: u32,
    given: Given,
    fate: Fate,
}

fn at(at: u32, given: Given, fate: Fate) -> Row {
    Row { at, given, fate }
}

fn packet(src: Ip6, dst: Ip6, next: u8) -> [u8; 40] {
    let mut bytes = [0; 40];
    bytes[0] = 0x60;
    bytes[6] = next;
    put(&mut bytes, 8, &src.0);
    put(&mut bytes, 24, &dst.0);
    bytes
}

/// The fate of what a relay is given.
fn give(relay: &mut Relay, now: Millis, given: Given, step: &mut Step) -> Result<Fate, NoMemory>
    requires { IsCallableRelay relay.old now.0 }
    ensures { relay.new.peers.moment ≤ now.0 }
{
    let bytes = match given {
        Given::Tick => {
            relay.on_tick(now, step);
            return Ok(step.fate());
        }
        Given::Six(client) => {
            relay.on_six(now, &packet(NATIVE, client, 17), step)?;
            return Ok(step.fate());
        }
        Given::Bubble(client) => packet(client, OWN, 59),
        Given::Packet(client) => packet(client, NATIVE, 17),
        Given::Stray(client) => packet(client, OWN, 17),
    };
    relay.on_datagram(now, Side::Primary, CLIENT_AT, &bytes, step)?;
    Ok(step.fate())
}

/// Whether a relay has these fates.
fn plays(alloc: Global, rows: &[Row]) -> Result<bool, NoMemory> {
    let served = Vec::from_slice(alloc, &[NATIVE])?;
    let mut relay = Relay::new(alloc, AT, OWN, Policy::Strict, served);
    let mut step = Step::new();
    let mut now = 0;
    for row in rows {
        now = u64::from(row.at).max(now);
        if give(&mut relay, Millis(now), row.given, &mut step)? != row.fate {
            return Ok(false);
        }
    }
    Ok(true)
}

#[test]
fn late_calls(rt: HostRuntime) -> Result<(), Fail> {
    let first = at(1_000, Given::Six(CLIENT), Fate::Queued);
    let second = at(2_999, Given::Six(CLIENT), Fate::Queued);
    let waits = [first, second, at(302_500, Given::Tick, Fate::Bubbles)];
    let ends = [first, second, at(302_999, Given::Tick, Fate::Idle)];
    let bars = [
        first,
        at(2_999, Given::Tick, Fate::Idle),
        at(3_000, Given::Tick, Fate::Bubbles),
        at(5_000, Given::Tick, Fate::Bubbles),
        at(7_000, Given::Tick, Fate::Bubbles),
        at(9_000, Given::Tick, Fate::GiveUp),
        at(9_001, Given::Six(CLIENT), Fate::Barred),
        at(300_999, Given::Six(CLIENT), Fate::Barred),
        at(301_000, Given::Six(CLIENT), Fate::Queued),
    ];
    let meets = [
        at(0, Given::Bubble(CLIENT), Fate::Unlisted),
        first,
        at(1_100, Given::Bubble(CLIENT), Fate::FromClientBubble),
        at(300_000, Given::Six(CLIENT), Fate::Sent),
        at(599_999, Given::Packet(CLIENT), Fate::FromClient),
        at(899_999, Given::Packet(CLIENT), Fate::Unlisted),
    ];
    let cone = [
        at(0, Given::Six(CONE), Fate::SentCone),
        at(1, Given::Six(CONE), Fate::Sent),
        at(2, Given::Tick, Fate::Idle),
        at(3, Given::Stray(CONE), Fate::Unserved),
        at(300_003, Given::Six(CONE), Fate::SentCone),
    ];
    for rows in [&waits[..], &ends[..], &bars[..], &meets[..], &cone[..]] {
        assert!(rt; plays(rt.alloc(), rows)? == true);
    }
    Ok(())
}
