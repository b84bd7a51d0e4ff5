//! A client's first minutes, beside words and bytes that other programs made.
ghost use Rattle.std.specs.Prelude.{◌<◌};
ghost use Rattle.td_base.specs.declared.millis.TheConstants.{CLOCK_END_MS};

use qualify::{Phase, Qualifier, Settings, draw_nonce};
use rand_chacha::ChaCha20Rng;
use rand_core::SeedableRng;
use std::test::Fail;
use td_base::{Ep, Ip4, Ip6, Millis, Policy, Side, put16, put64};
use teredo_node::{Fate, Step};

const PRIMARY: Ip4 = Ip4([192, 0, 2, 1]);

const SECONDARY: Ip4 = Ip4([192, 0, 2, 2]);

const CLIENT: Settings = Settings {
    inside: Ep {
        ip: Ip4([10, 0, 0, 2]),
        port: 4000,
    },
    primary: PRIMARY,
    secondary: SECONDARY,
    policy: Policy::Strict,
    low: 22_500,
    high: 30_000,
    random: false,
    cone_try: true,
};

// The nonces that 32 zero bytes give to the solicitations of the client below, in their order.
const CONE: u64 = 0xade0_b876_903d_f1a0;

const RESTRICTED: u64 = 0xccef_36a8_c70d_778b;

const SECOND: u64 = 0x7c59_41da_8d48_5751;

const REFRESH: u64 = 0x374a_d8b8_f4b8_436a;

const LATER_REFRESH: u64 = 0x69b6_87c3_8665_eeb2;

const LAST_REFRESH: u64 = 0x7a38_5155_7c97_ba98;

/// The client's first solicitation.
const FIRST: [u8; 61] = [
    0x00, 0x01, 0x00, 0x00, 0xad, 0xe0, 0xb8, 0x76, 0x90, 0x3d, 0xf1, 0xa0, 0x00, 0x60, 0x00, 0x00,
    0x00, 0x00, 0x08, 0x3a, 0xff, 0xfe, 0x80, 0x00, 0x00, 0x00, 0x00, 0x00, 0x00, 0x80, 0x00, 0xf0,
    0x5f, 0xf5, 0xff, 0xff, 0xfd, 0xff, 0x02, 0x00, 0x00, 0x00, 0x00, 0x00, 0x00, 0x00, 0x00, 0x00,
    0x00, 0x00, 0x00, 0x00, 0x02, 0x85, 0x00, 0x16, 0xd9, 0x00, 0x00, 0x00, 0x00,
];

/// A server's answer; the nonce stands at 4, the port of the origin at 15, with every bit inverted.
const ANSWER: [u8; 117] = [
    0x00, 0x01, 0x00, 0x00, 0x01, 0x02, 0x03, 0x04, 0x05, 0x06, 0x07, 0x08, 0x00, 0x00, 0x00, 0x63,
    0xbf, 0x39, 0xcc, 0x9b, 0xf8, 0x60, 0x00, 0x00, 0x00, 0x00, 0x38, 0x3a, 0xff, 0xfe, 0x80, 0x00,
    0x00, 0x00, 0x00, 0x00, 0x00, 0x80, 0x00, 0xf2, 0x27, 0x3f, 0xff, 0xfd, 0xfe, 0xfe, 0x80, 0x00,
    0x00, 0x00, 0x00, 0x00, 0x00, 0x00, 0x00, 0x63, 0xbf, 0x39, 0xcc, 0x9b, 0xf8, 0x86, 0x00, 0x63,
    0x98, 0x00, 0x00, 0x00, 0x00, 0x00, 0x00, 0x00, 0x00, 0x00, 0x00, 0x00, 0x00, 0x03, 0x04, 0x40,
    0x40, 0xff, 0xff, 0xff, 0xff, 0xff, 0xff, 0xff, 0xff, 0x00, 0x00, 0x00, 0x00, 0x20, 0x01, 0x00,
    0x00, 0xc0, 0x00, 0x02, 0x01, 0x00, 0x00, 0x00, 0x00, 0x00, 0x00, 0x00, 0x00, 0x05, 0x01, 0x00,
    0x00, 0x00, 0x00, 0x05, 0x00,
];

/// 2001:0:c000:201:0:63be:39cc:9bf8
const ADDRESS: Ip6 = Ip6([
    0x20, 1, 0, 0, 192, 0, 2, 1, 0, 0, 0x63, 0xbe, 0x39, 0xcc, 0x9b, 0xf8,
]);

/// What a client is given: a tick, or an answer with a nonce, from an address, to the port that the server saw.
#[derive(Clone, Copy)]
enum Given {
    Tick,
    Answer(u64, Ip4, u16),
}

/// When a client is given something, what becomes of it, and when something is due then.
#[derive(Clone, Copy)]
struct Row {
    at: u32,
    given: Given,
    fate: Fate,
    due: u64,
}

fn at(at: u32, given: Given, fate: Fate, due: u64) -> Row {
    Row {
        at,
        given,
        fate,
        due,
    }
}

/// From the start to a change of address; its second tick comes late.
fn rows() -> [Row; 17] {
    [
        at(0, Given::Tick, Fate::RsCone, 4_000),
        at(100_000, Given::Tick, Fate::RsCone, 104_000),
        at(104_000, Given::Tick, Fate::RsCone, 108_000),
        at(107_999, Given::Tick, Fate::Idle, 108_000),
        at(108_000, Given::Tick, Fate::RsRestricted, 112_000),
        at(
            108_001,
            Given::Answer(CONE, SECONDARY, 40_000),
            Fate::Nonce,
            112_000,
        ),
        at(
            108_002,
            Given::Answer(RESTRICTED, SECONDARY, 40_000),
            Fate::AdvertSource,
            112_000,
        ),
        at(
            108_003,
            Given::Answer(RESTRICTED, PRIMARY, 40_000),
            Fate::FirstAnswer,
            108_003,
        ),
        at(108_003, Given::Tick, Fate::RsSecondary, 112_003),
        at(
            108_004,
            Given::Answer(SECOND, SECONDARY, 40_000),
            Fate::QualifiedRestricted,
            131_643,
        ),
        at(131_643, Given::Tick, Fate::Refresh, 154_618),
        at(154_618, Given::Tick, Fate::Refresh, 181_941),
        at(
            154_619,
            Given::Answer(REFRESH, PRIMARY, 40_000),
            Fate::Nonce,
            181_941,
        ),
        at(
            154_620,
            Given::Answer(LATER_REFRESH, PRIMARY, 40_000),
            Fate::Same,
            181_943,
        ),
        at(
            154_621,
            Given::Answer(LATER_REFRESH, PRIMARY, 40_000),
            Fate::Nonce,
            181_943,
        ),
        at(181_943, Given::Tick, Fate::Refresh, 205_026),
        at(
            181_944,
            Given::Answer(LAST_REFRESH, PRIMARY, 40_001),
            Fate::Changed,
            205_027,
        ),
    ]
}

#[test]
fn words_of_32_zero_bytes(rt: HostRuntime) {
    let mut rng = ChaCha20Rng::from_seed([0; 32]);
    let nonces = [
        draw_nonce(&mut rng),
        draw_nonce(&mut rng),
        draw_nonce(&mut rng),
    ];
    assert!(rt;
        nonces
            == [
                0xade0_b876_903d_f1a0,
                0xe56a_5d40_28bd_8653,
                0xb819_d2bd_1aed_8da0
            ]
    );
}

/// The fate of an answer with a nonce.
fn hear(
    client: &mut Qualifier,
    now: Millis,
    answer: (u64, Ip4, u16),
    rng: &mut ChaCha20Rng,
) -> Option<Fate>
    requires { now.0 < CLOCK_END_MS }
{
    let (nonce, server, port) = answer;
    let mut bytes = ANSWER;
    put64(&mut bytes, 4, nonce);
    put16(&mut bytes, 15, !port);
    let payload = bubble::read(&bytes).ok()?;
    Some(client.on_advert(now, Ep::of_server(server), &payload, rng))
}

/// The fate of what a client is given.
fn give(client: &mut Qualifier, row: Row, rng: &mut ChaCha20Rng, step: &mut Step) -> Option<Fate> {
    let now = Millis(u64::from(row.at));
    match row.given {
        Given::Tick => {
            client.on_tick(now, rng, step);
            Some(step.fate())
        }
        Given::Answer(nonce, server, port) => hear(client, now, (nonce, server, port), rng),
    }
}

#[test]
fn a_client_behind_a_restricted_nat(rt: HostRuntime) -> Result<(), Fail> {
    let mut rng = ChaCha20Rng::from_seed([0; 32]);
    let mut step = Step::new();
    let mut client = Qualifier::start(CLIENT, Millis(0));
    for row in rows() {
        let fate = give(&mut client, row, &mut rng, &mut step).ok_or("a payload")?;
        assert!(rt; (fate, client.due()) == (row.fate, Some(Millis(row.due))));
    }
    client.heard_server(Millis(186_943));
    assert!(rt; client.due() == Some(Millis(210_026)));
    assert!(rt; matches!(client.phase(), Phase::Qualified) && client.settings().low == 22_500);
    assert!(rt; client.address() == Some(ADDRESS));
    Ok(())
}

#[test]
fn the_first_solicitation(rt: HostRuntime) {
    let mut rng = ChaCha20Rng::from_seed([0; 32]);
    let mut step = Step::new();
    let mut client = Qualifier::start(CLIENT, Millis(0));
    client.on_tick(Millis(0), &mut rng, &mut step);
    assert!(rt; (step.count(), step.drawn()) == (1, 2));
    let (side, to, bytes) = step.send(0);
    assert!(rt; side == Side::Primary && to == Ep::of_server(PRIMARY) && bytes == FIRST.as_slice());
}
