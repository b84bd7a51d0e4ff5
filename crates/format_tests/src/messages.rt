//! ICMPv6 messages and their options, read and written.
ghost use Rattle.std.specs.Prelude.{◌≤◌, length};

use crate::vectors::{HOST_LINK, SERVER_LINK};
use icmp6::{IcmpFault, Msg, Opt, options, read, write};
use td_base::{Ip6, Room, Span, put16};
use teredo_addr::ALL_ROUTERS;

// 2001:0:c000:201::ff
const GLOBAL: Ip6 = Ip6([0x20, 1, 0, 0, 0xc0, 0, 2, 1, 0, 0, 0, 0, 0, 0, 0, 0xff]);

const PREFIX: Ip6 = Ip6([0x20, 1, 0, 0, 0xc0, 0, 2, 1, 0, 0, 0, 0, 0, 0, 0, 0]);

const SOLICITATION: [u8; 8] = [0x85, 0, 0x43, 0xb3, 0, 0, 0, 0];

// From the server to the host.
const ADVERTISEMENT: [u8; 56] = [
    0x86, 0, 0x63, 0x98, 0, 0, 0, 0, 0, 0, 0, 0, 0, 0, 0, 0, //
    0x03, 0x04, 0x40, 0x40, 0xff, 0xff, 0xff, 0xff, 0xff, 0xff, 0xff, 0xff, 0, 0, 0, 0, //
    0x20, 0x01, 0, 0, 0xc0, 0, 0x02, 0x01, 0, 0, 0, 0, 0, 0, 0, 0, //
    0x05, 0x01, 0, 0, 0, 0, 0x05, 0,
];

// The checksums of the first 4, 5 .. 55 bytes of the advertisement, from another program.
const CUT_SUMS: [u16; 52] = [
    0x9314, 0x9313, 0x9312, 0x9311, 0x9310, 0x930f, 0x930e, 0x930d, 0x930c, 0x930b, 0x930a, 0x9309,
    0x9308, 0x9007, 0x9002, 0x5001, 0x4fc0, 0x50be, 0x4fbe, 0x50bc, 0x4fbc, 0x50ba, 0x4fba, 0x50b8,
    0x4fb8, 0x4fb7, 0x4fb6, 0x4fb5, 0x4fb4, 0x2fb3, 0x2fb1, 0x2fb0, 0x2faf, 0x6fad, 0x6fac, 0x6dab,
    0x6da9, 0x6da8, 0x6da7, 0x6da6, 0x6da5, 0x6da4, 0x6da3, 0x6da2, 0x6da1, 0x68a0, 0x689e, 0x689d,
    0x689c, 0x689b, 0x689a, 0x6399,
];

// The fault of a body that came to all routers.
fn fault(src: Ip6, hop: u8, body: &[u8]) -> Option<IcmpFault>
    requires { length body.now ≤ 65535 }
{
    read(src, ALL_ROUTERS, hop, body).err()
}

#[test]
fn each_fault_of_a_message(rt: HostRuntime) {
    let short = |len| Some(IcmpFault::Short { len });
    let hop = Some(IcmpFault::HopLimit { hop: 254 });
    let code = Some(IcmpFault::Code { code: 1 });
    // The checksum is 0, and ffff isn't taken for it.
    let sum = Some(IcmpFault::Sum {
        said: 0xffff,
        found: 0,
    });
    let advert = [0x86, 0, 0x97, 0xae, 0, 0, 0, 0, 0, 0, 0, 0, 0, 0, 0, 0];
    for (found, want) in [
        (fault(HOST_LINK, 255, &[]), short(0)),
        (fault(HOST_LINK, 255, &[0x85, 0, 0]), short(3)),
        (fault(HOST_LINK, 64, &[0x80, 0, 0x48, 0xb7]), short(4)),
        (
            fault(HOST_LINK, 64, &[0x81, 0, 0x47, 0xb4, 0, 0, 0]),
            short(7),
        ),
        (
            fault(SERVER_LINK, 64, &[0x86, 0, 0xcc, 0x10, 0, 0, 0, 0]),
            short(8),
        ),
        (
            fault(HOST_LINK, 64, &[0x80, 0, 0, 0, 0x48, 0xb2, 0, 1]),
            None,
        ),
        (
            fault(HOST_LINK, 64, &[0x80, 0, 0xff, 0xff, 0x48, 0xb2, 0, 1]),
            sum,
        ),
        (fault(HOST_LINK, 254, &SOLICITATION), hop),
        (
            fault(HOST_LINK, 254, &[0x85, 1, 0x43, 0xb2, 0, 0, 0, 0]),
            hop,
        ),
        (
            fault(HOST_LINK, 255, &[0x85, 1, 0x43, 0xb2, 0, 0, 0, 0]),
            code,
        ),
        (
            fault(HOST_LINK, 64, &[0x80, 1, 0x48, 0xaf, 0, 1, 0, 2]),
            code,
        ),
        (fault(GLOBAL, 255, &advert), Some(IcmpFault::Source)),
    ] {
        assert!(rt; found == want);
    }
}

#[test]
fn each_fault_of_options(rt: HostRuntime) {
    let cut = Some(IcmpFault::OptionCut { place: 8 });
    let zero = |place| Some(IcmpFault::OptionZero { place });
    let cut_head = [0x85, 0, 0x42, 0xb2, 0, 0, 0, 0, 1];
    let long = [0x85, 0, 0x42, 0xa9, 0, 0, 0, 0, 1, 2, 0, 0, 0, 0, 0, 0];
    let second = [
        0x85, 0, 0x41, 0xa2, 0, 0, 0, 0, 1, 1, 0, 0, 0, 0, 0, 0, 1, 0, 0, 0, 0, 0, 0, 0,
    ];
    // The first fault, though the second option is cut.
    let both = [
        0x85, 0, 0x41, 0xa0, 0, 0, 0, 0, 1, 0, 0, 0, 0, 0, 0, 0, 1, 3, 0, 0, 0, 0, 0, 0,
    ];
    for (found, want) in [
        (fault(HOST_LINK, 255, &cut_head), cut),
        (fault(HOST_LINK, 255, &long), cut),
        (fault(HOST_LINK, 255, &second), zero(16)),
        (fault(HOST_LINK, 255, &both), zero(8)),
    ] {
        assert!(rt; found == want);
    }
}

// The fault of so many bytes of the solicitation: the bytes that are cut are zeros, and the length goes into the sum.
fn solicitation_fault(len: usize) -> Option<IcmpFault> {
    match len {
        0..=3 => Some(IcmpFault::Short { len }),
        4..=7 => Some(IcmpFault::Sum {
            said: 0x43b3,
            found: 0x43bb - len as u16,
        }),
        _ => None,
    }
}

// The fault of so many bytes of the advertisement with the right checksum.
fn advertisement_fault(len: usize) -> Option<IcmpFault> {
    match len {
        0..=15 => Some(IcmpFault::Short { len }),
        17..=47 => Some(IcmpFault::OptionCut { place: 16 }),
        49..=55 => Some(IcmpFault::OptionCut { place: 48 }),
        _ => None,
    }
}

#[test]
fn each_cut(rt: HostRuntime) {
    for len in 0..9 {
        let found = fault(HOST_LINK, 255, &SOLICITATION[..len]);
        assert!(rt; found == solicitation_fault(len), "{len} bytes");
    }
    for (i, sum) in CUT_SUMS.iter().enumerate() {
        let len = i + 4;
        let mut body = ADVERTISEMENT;
        let wrong = read(SERVER_LINK, HOST_LINK, 255, &body[..len]).err();
        assert!(rt;
            wrong
                == Some(IcmpFault::Sum {
                    said: 0x6398,
                    found: *sum
                }),
            "{len} bytes"
        );
        put16(&mut body, 2, *sum);
        let right = read(SERVER_LINK, HOST_LINK, 255, &body[..len]).err();
        assert!(rt; right == advertisement_fault(len), "{len} bytes");
    }
}

// All bytes but the last.
fn front(bytes: &[u8]) -> &[u8] {
    match bytes {
        [front @ .., _] => front,
        [] => bytes,
    }
}

#[test]
fn advertisement(rt: HostRuntime) {
    let Ok(Msg::RouterAdvert { options: lent, .. }) = read(
        SERVER_LINK,
        HOST_LINK,
        255,
        &ADVERTISEMENT,
    ) else {
        panic!(rt; "no advertisement");
    };
    let mut given = options(lent);
    let prefix = Opt::Prefix {
        length: 64,
        flags: 0x40,
        valid: u32::MAX,
        preferred: u32::MAX,
        prefix: PREFIX,
    };
    assert!(rt; given.next() == Some(prefix));
    assert!(rt; given.next() == Some(Opt::Mtu { mtu: 1280 }));
    assert!(rt; given.next() == None);

    let message = Msg::RouterAdvert {
        hop: 0,
        flags: 0,
        life: 0,
        reach: 0,
        retrans: 0,
        options: lent,
    };
    let mut out = [0xaa; 57];
    assert!(rt;
        write(&message, SERVER_LINK, HOST_LINK, &mut out[..55]) == Err(Room { needed: 56 })
    );
    assert!(rt; write(&message, SERVER_LINK, HOST_LINK, &mut out) == Ok(56));
    assert!(rt; front(&out) == ADVERTISEMENT.as_slice() && out[56] == 0xaa);
}

#[test]
fn other_options(rt: HostRuntime) {
    let body = [
        0x85, 0, 0x3d, 0x98, 0, 0, 0, 0, 1, 1, 0, 0, 0, 0, 0, 0, 5, 2, 0, 0, 0, 0, 0, 0, 0, 0, 0,
        0, 0, 0, 0, 0,
    ];
    let Ok(Msg::RouterSolicit { options: lent }) = read(HOST_LINK, ALL_ROUTERS, 255, &body) else {
        panic!(rt; "no solicitation");
    };
    let other = |kind, at, len| Some(Opt::Other {
        kind,
        span: Span { at, len },
    });
    let mut given = options(lent);
    assert!(rt; given.next() == other(1, 0, 8));
    assert!(rt; given.next() == other(5, 8, 16));
    assert!(rt; given.next() == None);
}

#[test]
fn echo_and_other(rt: HostRuntime) {
    let body = [
        0x80, 0, 0x1b, 0x3c, 0x12, 0x34, 0x56, 0x78, 0x61, 0x62, 0x63, 0x64,
    ];
    let Ok(Msg::EchoRequest { id, seq, body }) = read(HOST_LINK, ALL_ROUTERS, 64, &body) else {
        panic!(rt; "no echo");
    };
    assert!(rt; id == 0x1234 && seq == 0x5678 && body == b"abcd".as_slice());

    let body = [0xc8, 7, 0x55, 0xf2, 0xaa, 0xbb];
    let Ok(Msg::Other { kind, code, rest }) = read(HOST_LINK, ALL_ROUTERS, 64, &body) else {
        panic!(rt; "no other message");
    };
    assert!(rt; kind == 200 && code == 7 && rest == [0xaa, 0xbb].as_slice());
}
