//! `wire`, `audit` and `explain`, over a source and a sink in memory.
use crate::files_and_words::{ASKED, NO_EVENTS};
use crate::full_wires::LONG;
use crate::nets::{CLIENT, OTHER_CLIENT, OTHER_NAT, PORT_NAT, SERVER};
use crate::runs::{NAME, Row, ended, ending, ending_on, ends_so, text_with};
use std::alloc::Global;
use std::test::Fail;
use td_base::NoMemory;

const WIRE: [&str; 2] = ["wire", NAME];

const AUDIT: [&str; 4] = ["audit", "192.0.2.1", "192.0.2.2", NAME];

const EXPLAIN: [&str; 4] = ["explain", "192.0.2.1", "192.0.2.2", NAME];

/// The head of each capture that is written.
const HEAD: [u8; 24] = [
    0xa1, 0xb2, 0xc3, 0xd4, 0, 2, 0, 4, 0, 0, 0, 0, 0, 0, 0, 0, 0, 0, 0xff, 0xff, 0, 0, 0, 0x65,
];

/// The record of a solicitation.
const ASKS: [u8; 105] = [
    0, 0, 0, 0, 0, 0, 0, 0, 0, 0, 0, 0x59, 0, 0, 0, 0x59, 0x45, 0, 0, 0x59, 0, 0, 0, 0, 0x40, 0x11,
    0x8e, 0x58, 0xc6, 0x33, 0x64, 7, 0xc0, 0, 2, 1, 0x9c, 0x40, 0x0d, 0xd8, 0, 0x45, 0x93, 0x5f, 0,
    1, 0, 0, 1, 2, 3, 4, 5, 6, 7, 8, 0, 0x60, 0, 0, 0, 0, 8, 0x3a, 0xff, 0xfe, 0x80, 0, 0, 0, 0, 0,
    0, 0, 0, 0x63, 0xbf, 0x39, 0xcc, 0x9b, 0xf8, 0xff, 2, 0, 0, 0, 0, 0, 0, 0, 0, 0, 0, 0, 0, 0, 2,
    0x85, 0, 0x43, 0xb3, 0, 0, 0, 0,
];

/// The record of the answer to it.
const ANSWERS: [u8; 161] = [
    0, 0, 0, 0, 0, 0, 0, 0, 0, 0, 0, 0x91, 0, 0, 0, 0x91, 0x45, 0, 0, 0x91, 0, 0, 0, 0, 0x40, 0x11,
    0x8e, 0x20, 0xc0, 0, 2, 1, 0xc6, 0x33, 0x64, 7, 0x0d, 0xd8, 0x9c, 0x40, 0, 0x7d, 0x0e, 0xb6, 0,
    1, 0, 0, 1, 2, 3, 4, 5, 6, 7, 8, 0, 0, 0, 0x63, 0xbf, 0x39, 0xcc, 0x9b, 0xf8, 0x60, 0, 0, 0, 0,
    0x38, 0x3a, 0xff, 0xfe, 0x80, 0, 0, 0, 0, 0, 0, 0x80, 0, 0xf2, 0x27, 0x3f, 0xff, 0xfd, 0xfe,
    0xfe, 0x80, 0, 0, 0, 0, 0, 0, 0, 0, 0x63, 0xbf, 0x39, 0xcc, 0x9b, 0xf8, 0x86, 0, 0x63, 0x98, 0,
    0, 0, 0, 0, 0, 0, 0, 0, 0, 0, 0, 3, 4, 0x40, 0x40, 0xff, 0xff, 0xff, 0xff, 0xff, 0xff, 0xff,
    0xff, 0, 0, 0, 0, 0x20, 1, 0, 0, 0xc0, 0, 2, 1, 0, 0, 0, 0, 0, 0, 0, 0, 5, 1, 0, 0, 0, 0, 5, 0,
];

/// A head whose link type is Ethernet.
const OTHER_LINK: [u8; 24] = [
    0xa1, 0xb2, 0xc3, 0xd4, 0, 2, 0, 4, 0, 0, 0, 0, 0, 0, 0, 0, 0, 0, 0xff, 0xff, 0, 0, 0, 1,
];

/// A head whose first byte is another one.
const OTHER_MAGIC: [u8; 24] = [
    0xa0, 0xb2, 0xc3, 0xd4, 0, 2, 0, 4, 0, 0, 0, 0, 0, 0, 0, 0, 0, 0, 0xff, 0xff, 0, 0, 0, 0x65,
];

/// A head of version 2.5.
const OTHER_VERSION: [u8; 24] = [
    0xa1, 0xb2, 0xc3, 0xd4, 0, 2, 0, 5, 0, 0, 0, 0, 0, 0, 0, 0, 0, 0, 0xff, 0xff, 0, 0, 0, 0x65,
];

/// The numbers of a record of 65,536 bytes.
const TOO_BIG: [u8; 16] = [0, 0, 0, 0, 0, 0, 0, 0, 0, 1, 0, 0, 0, 1, 0, 0];

/// A record of one byte.
const NO_DATAGRAM: [u8; 17] = [0, 0, 0, 0, 0, 0, 0, 0, 0, 0, 0, 1, 0, 0, 0, 1, 0x60];

/// A client was answered once, and asked 65,535 times.
const LONG_LEN: usize = HEAD.len() + 65_535 * ASKS.len() + ANSWERS.len();

/// One part after the other.
fn joined(alloc: Global, parts: &[&[u8]]) -> Result<Vec<u8>, NoMemory> {
    let mut bytes = Vec::new(alloc);
    for part in parts {
        bytes.extend_from_slice(part)?;
    }
    Ok(bytes)
}

/// Whether a scenario is captured with this status, as these bytes.
fn is_captured(alloc: Global, text: &str, status: u8, parts: &[&[u8]]) -> Result<bool, NoMemory> {
    let (found, sink) = ended(alloc, &ending(&WIRE, text, status, ""))?;
    let bytes = joined(alloc, parts)?;
    Ok(found == status && sink.as_slice() == bytes.as_slice())
}

/// The parts of a file, and how its audit ends, or what explains it.
#[derive(Drop)]
struct Audited<'a> {
    parts: &'a [&'a [u8]],
    status: u8,
    line: &'a str,
}

/// Whether these words end so.
fn is_audited(alloc: Global, words: &[&str], row: &Audited) -> Result<bool, NoMemory> {
    let bytes = joined(alloc, row.parts)?;
    ends_so(
        alloc,
        &ending_on(words, bytes.as_slice(), row.status, row.line),
    )
}

#[test]
fn a_wire_is_captured(rt: HostRuntime) -> Result<(), Fail> {
    let alloc = rt.alloc();
    assert!(rt; is_captured(alloc, ASKED, 0, &[&HEAD, &ASKS, &ANSWERS])?);
    assert!(rt; is_captured(alloc, NO_EVENTS, 0, &[&HEAD])?);
    assert!(rt; is_captured(alloc, "", 3, &[b"scenario seed: key\n"])?);
    Ok(())
}

#[test]
fn a_capture_breaks_off_where_the_wire_is_full(rt: HostRuntime) -> Result<(), Fail> {
    let (status, sink) = ended(rt.alloc(), &ending(&WIRE, LONG, 8, ""))?;
    assert!(rt; status == 8);
    assert!(rt; sink.as_slice().len() == LONG_LEN);
    Ok(())
}

#[test]
fn a_capture_is_audited(rt: HostRuntime) -> Result<(), Fail> {
    let rows = [
        Audited {
            parts: &[&HEAD, &ASKS, &ANSWERS],
            status: 0,
            line: "clean packets 2 to 1 from 1 skipped 0\n",
        },
        Audited {
            parts: &[&HEAD, &ANSWERS, &ASKS],
            status: 10,
            line: "unlicensed 0\n",
        },
        Audited {
            parts: &[&HEAD, &ASKS, &ANSWERS, &ANSWERS],
            status: 10,
            line: "unlicensed 2\n",
        },
        Audited {
            parts: &[&HEAD],
            status: 0,
            line: "clean packets 0 to 0 from 0 skipped 0\n",
        },
        Audited {
            parts: &[&HEAD, &NO_DATAGRAM, &ASKS, &ANSWERS],
            status: 0,
            line: "clean packets 3 to 1 from 1 skipped 1\n",
        },
        Audited {
            parts: &[&HEAD, &NO_DATAGRAM, &ANSWERS],
            status: 10,
            line: "unlicensed 1\n",
        },
        Audited {
            parts: &[&HEAD, &ASKS, &ANSWERS, &TOO_BIG],
            status: 11,
            line: "capture big at 290\n",
        },
        Audited {
            parts: &[&HEAD, &ANSWERS, b"\0"],
            status: 11,
            line: "capture cut at 185\n",
        },
        Audited {
            parts: &[],
            status: 11,
            line: "capture cut at 0\n",
        },
        Audited {
            parts: &[&OTHER_MAGIC],
            status: 11,
            line: "capture magic\n",
        },
        Audited {
            parts: &[&OTHER_VERSION],
            status: 11,
            line: "capture version\n",
        },
        Audited {
            parts: &[&OTHER_LINK],
            status: 11,
            line: "capture link\n",
        },
    ];
    for row in rows.iter() {
        assert!(rt; is_audited(rt.alloc(), &AUDIT, row)?, "{}", row.line);
    }
    Ok(())
}

#[test]
fn a_capture_is_explained(rt: HostRuntime) -> Result<(), Fail> {
    let rows = [
        Audited {
            parts: &[&HEAD, &ASKS, &ANSWERS],
            status: 0,
            line: "0 asked primary 198.51.100.7:40000 advert =192.0.2.1:3544>198.51.100.7:40000/117\n\
                1 answered 198.51.100.7:40000 licensed by 0\n\
                total packets 2 asked 1 answered 1 skipped 0 dropped 0 silent 0 unlicensed 0\n",
        },
        Audited {
            parts: &[&HEAD, &ANSWERS, &NO_DATAGRAM, &ASKS, &ANSWERS],
            status: 10,
            line: "0 answered 198.51.100.7:40000 unlicensed\n\
                1 skipped short 1\n\
                2 asked primary 198.51.100.7:40000 advert =192.0.2.1:3544>198.51.100.7:40000/117\n\
                3 answered 198.51.100.7:40000 unlicensed again 2\n\
                total packets 4 asked 1 answered 2 skipped 1 dropped 0 silent 1 unlicensed 2\n",
        },
        Audited {
            parts: &[&HEAD, &ASKS, &TOO_BIG],
            status: 11,
            line: "0 asked primary 198.51.100.7:40000 advert =192.0.2.1:3544>198.51.100.7:40000/117\n\
                capture big at 129\n",
        },
        Audited {
            parts: &[&OTHER_LINK],
            status: 11,
            line: "capture link\n",
        },
    ];
    for row in rows.iter() {
        assert!(rt; is_audited(rt.alloc(), &EXPLAIN, row)?, "{}", row.line);
    }
    Ok(())
}

/// Both qualify as restricted.
const BOTH_RESTRICTED: &str =
    r#""advance 12000", "deliver 6", "deliver 7", "deliver 8", "deliver 9", "advance 0", "deliver 10",
       "deliver 11", "deliver 12", "deliver 13""#;

/// The host of the first sends to the second, and each entry comes twice.
const EACH_TWICE: &str =
    r#""host a b 68656c6c6f", "deliver 15", "deliver 15", "deliver 14", "deliver 14", "deliver 16", "deliver 16",
       "deliver 18", "deliver 18", "deliver 19", "deliver 19""#;

/// An indirect bubble was delivered twice, and a wire shows it once.
#[test]
fn what_was_forwarded_twice_is_unlicensed(rt: HostRuntime) -> Result<(), Fail> {
    let nodes = [SERVER, PORT_NAT, OTHER_NAT, CLIENT, OTHER_CLIENT];
    let text = text_with(rt.alloc(), &nodes, &[BOTH_RESTRICTED, EACH_TWICE])?;
    let (status, sink) = ended(rt.alloc(), &ending(&WIRE, text.as_str(), 0, ""))?;
    assert!(rt; status == 0);
    assert!(rt;
        ends_so(
            rt.alloc(),
            &ending_on(&AUDIT, sink.as_slice(), 10, "unlicensed 17\n")
        )?
    );
    Ok(())
}

#[test]
fn captures_end_as_files_and_sinks_fail(rt: HostRuntime) -> Result<(), Fail> {
    let rows = [
        Row {
            read_fails: &[1],
            ..ending(&WIRE, ASKED, 4, "")
        },
        Row {
            write_fails: &[0],
            ..ending(&WIRE, ASKED, 5, "")
        },
        Row {
            read_fails: &[1],
            ..ending_on(&AUDIT, &HEAD, 4, "")
        },
        Row {
            write_fails: &[0],
            ..ending_on(&AUDIT, &HEAD, 5, "")
        },
        Row {
            write_fails: &[0],
            ..ending_on(&AUDIT, &[], 5, "")
        },
        Row {
            read_fails: &[1],
            ..ending_on(&EXPLAIN, &HEAD, 4, "")
        },
        Row {
            write_fails: &[0],
            ..ending_on(&EXPLAIN, &HEAD, 5, "")
        },
        ending(&["audit", "192.0.2.1", "192.0.2.1", NAME], "", 2, "words\n"),
        ending(
            &["audit", "192.0.2.1", "192.0.2.256", NAME],
            "",
            2,
            "words\n",
        ),
        ending(&["audit", "192.0.2.1", "192.0.2.2"], "", 2, "words\n"),
        ending(&["wire"], "", 2, "words\n"),
    ];
    for row in rows.iter() {
        assert!(rt; ends_so(rt.alloc(), row)?, "{}", row.written);
    }
    Ok(())
}
