//! Numbers, addresses and endpoints as text; lines, sums; the blocks of addresses.
use crate::vectors::CLIENT;
use std::test::Fail;
use td_base::{
    BadText, Ep, Ip4, LineBuf, Policy, Room, folded_sum, is_global, ones_sum, print_ep, print_ip4,
    print_ip6, print_number, print_text, read_ep, read_ip4, read_ip6, read_number, unfolded_sum,
};

/// What a text is read as.
#[derive(Clone, Copy, Debug)]
enum Reader {
    Number(u64),
    Ip4,
    Ip6,
    Ep,
}

fn place<T: Drop>(read: Result<T, BadText>) -> Option<usize> {
    match read {
        Ok(_) => None,
        Err(bad) => Some(bad.place),
    }
}

impl Reader {
    /// Where it refuses the text.
    fn place(self, text: &[u8]) -> Option<usize> {
        match self {
            Reader::Number(most) => place(read_number(text, most)),
            Reader::Ip4 => place(read_ip4(text)),
            Reader::Ip6 => place(read_ip6(text)),
            Reader::Ep => place(read_ep(text)),
        }
    }
}

#[test]
fn texts_and_places(rt: HostRuntime) {
    for (reader, text, want) in [
        (Reader::Number(u64::MAX), "0", None),
        (Reader::Number(u64::MAX), "18446744073709551615", None),
        (Reader::Number(u64::MAX), "18446744073709551616", Some(19)),
        (Reader::Number(u64::MAX), "", Some(0)),
        (Reader::Number(u64::MAX), "-1", Some(0)),
        (Reader::Number(u64::MAX), "00", Some(1)),
        (Reader::Number(u64::MAX), "1 ", Some(1)),
        (Reader::Number(255), "256", Some(2)),
        (Reader::Number(5), "7", Some(0)),
        (Reader::Ip4, "0.0.0.0", None),
        (Reader::Ip4, "255.255.255.255", None),
        (Reader::Ip4, "", Some(0)),
        (Reader::Ip4, "256.1.1.1", Some(2)),
        (Reader::Ip4, "01.2.3.4", Some(1)),
        (Reader::Ip4, "1.2.3", Some(5)),
        (Reader::Ip4, "1.2.3.4.", Some(7)),
        (Reader::Ip4, "1..2.3", Some(2)),
        (Reader::Ip4, "192.168.0.300", Some(12)),
        (Reader::Ep, "192.0.2.45:0", None),
        (Reader::Ep, "192.0.2.45:65535", None),
        (Reader::Ep, "192.0.2.45", Some(10)),
        (Reader::Ep, "192.0.2.45:", Some(11)),
        (Reader::Ep, "192.0.2.45:65536", Some(15)),
        (Reader::Ep, "192.0.2.45.1", Some(10)),
        (Reader::Ep, ":1", Some(0)),
        (Reader::Ip6, "", Some(0)),
        (Reader::Ip6, ":", Some(1)),
        (Reader::Ip6, ":1", Some(1)),
        (Reader::Ip6, ":::", Some(2)),
        (Reader::Ip6, "1", Some(1)),
        (Reader::Ip6, "g::", Some(0)),
        (Reader::Ip6, "12345::", Some(4)),
        (Reader::Ip6, "1::2::3", Some(5)),
        (Reader::Ip6, "::1.2.3.4", Some(3)),
        (Reader::Ip6, "fe80::1%eth0", Some(7)),
        (Reader::Ip6, "1:2:3:4:5:6:7", Some(13)),
        (Reader::Ip6, "1:2:3:4:5:6:7:8:9", Some(15)),
        (Reader::Ip6, "1:2:3:4:5:6:7:8::", Some(15)),
        (Reader::Ip6, "1::2:3:4:5:6:7:8", Some(14)),
        (Reader::Ip6, "1:2:3:4:5:6:7::8", Some(15)),
    ] {
        assert!(rt;
            reader.place(text.as_bytes()) == want,
            "{reader:?} of {text}"
        );
    }
}

/// The examples of RFC 5952, section 4, `::` at each end, and a Teredo address.
#[test]
fn ipv6_texts_as_rfc_5952_prints_them(rt: HostRuntime) -> Result<(), Fail> {
    for (text, want) in [
        ("2001:0db8::0001", "2001:db8::1"),
        ("2001:db8:0:0:0:0:2:1", "2001:db8::2:1"),
        ("2001:db8::1:1:1:1:1", "2001:db8:0:1:1:1:1:1"),
        ("2001:0:0:1:0:0:0:1", "2001:0:0:1::1"),
        ("2001:db8:0:0:1:0:0:1", "2001:db8::1:0:0:1"),
        ("2001:DB8::ABCD", "2001:db8::abcd"),
        ("0:0:0:0:0:0:0:0", "::"),
        ("0:0:0:0:0:0:0:1", "::1"),
        ("1:0:0:0:0:0:0:0", "1::"),
        ("::2:3:4:5:6:7:8", "0:2:3:4:5:6:7:8"),
        ("1:2:3:4:5:6:7::", "1:2:3:4:5:6:7:0"),
        (
            "FFFF:FFFF:FFFF:FFFF:FFFF:FFFF:FFFF:FFFF",
            "ffff:ffff:ffff:ffff:ffff:ffff:ffff:ffff",
        ),
        (
            "2001:0:4136:e378:8000:63bf:3fff:fdd2",
            "2001:0:4136:e378:8000:63bf:3fff:fdd2",
        ),
    ] {
        let ip = read_ip6(text.as_bytes()).ok().ok_or("an address")?;
        let mut line = LineBuf::new();
        let is_printed = print_ip6(ip, &mut line).is_ok();
        assert!(rt;
            is_printed && line.as_slice() == want.as_bytes(),
            "at {text}"
        );
    }
    let read = read_ip6(b"2001:0:4136:e378:8000:63bf:3fff:fdd2");
    assert!(rt; matches!(read, Ok(ip) if ip == CLIENT));
    Ok(())
}

#[test]
fn a_line_fills_up(rt: HostRuntime) {
    let mut line = LineBuf::new();
    let ep = Ep {
        ip: Ip4([192, 0, 2, 45]),
        port: 40_000,
    };
    assert!(rt; print_text(&[b'x'; 1000], &mut line).is_ok());
    assert!(rt; print_number(7, &mut line).is_ok());
    assert!(rt; print_ip4(ep.ip, &mut line).is_ok());
    assert!(rt; print_ep(ep, &mut line).is_err());
    assert!(rt; print_text(&[b'y'; 13], &mut line).is_ok());
    assert!(rt; matches!(print_text(b"zz", &mut line), Err(Room { needed: 1026 })));
    line.clear();
    assert!(rt; print_ep(ep, &mut line).is_ok());
    assert!(rt; line.as_slice() == b"192.0.2.45:40000".as_slice());
}

/// RFC 1071's example, whole and in two steps, an IPv4 header of RFC 791's form, odd lengths, and what folds over.
#[test]
fn sums(rt: HostRuntime) {
    let header = [
        0x45, 0, 0, 0x73, 0, 0, 0x40, 0, 0x40, 0x11, 0, 0, 0xc0, 0xa8, 0, 1, 0xc0, 0xa8, 0, 0xc7,
    ];
    let example = [0, 1, 0xf2, 3, 0xf4, 0xf5, 0xf6, 0xf7];
    for (sum, want) in [
        (ones_sum(&example, 0), 0xddf2),
        (
            folded_sum(unfolded_sum(&example[4..], unfolded_sum(&example[..4], 0))),
            0xddf2,
        ),
        (ones_sum(&header, 0), 0x479e),
        (ones_sum(&[1], 0), 0x0100),
        (
            ones_sum(&[0, 1, 0xf2, 3, 0xf4, 0xf5, 0xf6, 0xf7, 1], 0),
            0xdef2,
        ),
        (ones_sum(&[0xff; 9], 0), 0xff00),
        (ones_sum(&[0xff; 64], 0), 0xffff),
        (ones_sum(&[], 0x1_0001), 2),
        (ones_sum(&[], 0), 0),
    ] {
        assert!(rt; sum == want);
    }
}

#[test]
fn the_edges_of_the_blocks(rt: HostRuntime) {
    for (policy, ip, want) in [
        (Policy::Strict, [9, 255, 255, 255], true),
        (Policy::Strict, [10, 0, 0, 0], false),
        (Policy::Strict, [11, 0, 0, 0], true),
        (Policy::Strict, [127, 0, 0, 1], false),
        (Policy::Loopback, [127, 0, 0, 1], true),
        (Policy::Strict, [169, 254, 0, 1], false),
        (Policy::Strict, [172, 15, 255, 255], true),
        (Policy::Strict, [172, 31, 255, 255], false),
        (Policy::Strict, [172, 32, 0, 0], true),
        (Policy::Strict, [192, 168, 1, 1], false),
        (Policy::Strict, [223, 255, 255, 255], true),
        (Policy::Strict, [224, 0, 0, 1], false),
        (Policy::Strict, [255, 255, 255, 255], false),
    ] {
        assert!(rt; is_global(policy, Ip4(ip)) == want);
    }
}
