//! `lab` on a server, `show`, `gen`, and words that are no command, over a source and a sink in memory.
use crate::runs::{LAB, Row, ending, ends_so};
use std::test::Fail;

/// A server is asked by a client that isn't cone.
pub const ASKED: &str = r#"
seed = 1
events = [
  "stranger 198.51.100.7:40000 192.0.2.1:3544 000100000102030405060708006000000000083afffe80000000000000000063bf39cc9bf8ff020000000000000000000000000002850043b300000000",
  "deliver 0",
]
server = [{ name = "s1", primary = "192.0.2.1", secondary = "192.0.2.2" }]
"#;

const ASKED_FIRST: &str = "0 0 0 stranger - put #0=198.51.100.7:40000>192.0.2.1:3544/61\n";

const ASKED_RECORDS: &str = "0 0 0 stranger - put #0=198.51.100.7:40000>192.0.2.1:3544/61\n\
     1 0 1 deliver:0 s1 advert #1=192.0.2.1:3544>198.51.100.7:40000/117\n";

const ASKED_REPORT: &str = "0 0 0 stranger - put #0=198.51.100.7:40000>192.0.2.1:3544/61\n\
     1 0 1 deliver:0 s1 advert #1=192.0.2.1:3544>198.51.100.7:40000/117\n\
     total records 2 entries 2 delivered 1 handed 0 kept 0 dropped 0\n";

pub const NO_EVENTS: &str = "seed = 1\nevents = []\n";

const NO_EVENTS_REPORT: &str = "total records 0 entries 0 delivered 0 handed 0 kept 0 dropped 0\n";

/// What another program says of the same scenario.
const GENERATED_TOTALS: &str =
    "total records 2318 entries 757 delivered 803 handed 25 kept 3 dropped 1033\n";

/// A bubble from one client to another.
const BUBBLE: &str =
    "6000000000003bff200100004136e378800063bf3ffffdd2200100004136e378000063bf39cc9bf8";

const BUBBLE_LINES: &str = "auth none\n\
     origin none\n\
     packet class 0 flow 0 next 59 hop 255 length 0\n\
     source 2001:0:4136:e378:8000:63bf:3fff:fdd2\n\
     teredo server 65.54.227.120 flags 8000 mapped 192.0.2.45:40000\n\
     destination 2001:0:4136:e378:0:63bf:39cc:9bf8\n\
     teredo server 65.54.227.120 flags 0000 mapped 198.51.100.7:40000\n\
     body bubble -\n";

/// An origin before an authentication.
const WRONG_ORDER: &str =
    "000063bf39cc9bf8000100000102030405060708006000000000083afffe80000000000000000063bf39cc9bf8ff020000000000000000000000000002850043b300000000";

/// A solicitation without its last byte.
const CUT: &str =
    "000100000102030405060708006000000000083afffe80000000000000000063bf39cc9bf8ff020000000000000000000000000002850043b3000000";

/// A bubble without its last byte.
const CUT_BUBBLE: &str =
    "6000000000003bff200100004136e378800063bf3ffffdd2200100004136e378000063bf39cc9b";

#[test]
fn files_are_played_and_words_are_shown(rt: HostRuntime) -> Result<(), Fail> {
    let rows = [
        ending(&LAB, ASKED, 0, ASKED_REPORT),
        ending(&["show", BUBBLE], "", 0, BUBBLE_LINES),
        ending(&["show", WRONG_ORDER], "", 1, "fault order at 8\n"),
        ending(&["show", CUT], "", 1, "fault length said 8 there 7 at 13\n"),
        ending(&["show", CUT_BUBBLE], "", 1, "fault short 39 at 0\n"),
        ending(&["show", "-"], "", 1, "fault hex at 0\n"),
        ending(&["show", ""], "", 1, "fault cut at 0\n"),
        ending(&[], "", 2, "words\n"),
        ending(&["lab"], "", 2, "words\n"),
        ending(&["show"], "", 2, "words\n"),
        ending(&["--help"], "", 2, "words\n"),
        ending(&["gen", "7", "0"], "", 0, NO_EVENTS_REPORT),
        ending(&["gen", "7", "2000"], "", 0, GENERATED_TOTALS),
        ending(&["gen", "7"], "", 2, "words\n"),
        ending(&["gen", "01", "5"], "", 2, "words\n"),
        ending(&["gen", "9223372036854775808", "5"], "", 2, "words\n"),
        ending(&["gen", "1", "50001"], "", 2, "words\n"),
        ending(
            &["serve", "127.0.0.1", "127.0.0.1", "1", "1"],
            "",
            2,
            "words\n",
        ),
        ending(
            &["serve", "127.0.0.1", "127.0.0.256", "1", "1"],
            "",
            2,
            "words\n",
        ),
        ending(
            &["serve", "127.0.0.1", "127.0.0.2", "1000000001", "1"],
            "",
            2,
            "words\n",
        ),
        ending(
            &["serve", "127.0.0.1", "127.0.0.2", "01", "1"],
            "",
            2,
            "words\n",
        ),
        ending(
            &["serve", "127.0.0.1", "127.0.0.2", "1", "0"],
            "",
            2,
            "words\n",
        ),
    ];
    for row in rows.iter() {
        assert!(rt; ends_so(rt.alloc(), row)?, "{}", row.written);
    }
    Ok(())
}

#[test]
fn what_fails_outside_ends_the_run(rt: HostRuntime) -> Result<(), Fail> {
    // The file is opened, read, and read to its end; each line is written by one call.
    let rows = [
        Row {
            read_fails: &[0],
            ..ending(&LAB, ASKED, 4, "")
        },
        Row {
            read_fails: &[1],
            ..ending(&LAB, ASKED, 4, "")
        },
        Row {
            read_fails: &[2],
            ..ending(&LAB, ASKED, 4, "")
        },
        Row {
            write_fails: &[0],
            ..ending(&LAB, ASKED, 5, "")
        },
        Row {
            write_fails: &[1],
            ..ending(&LAB, ASKED, 5, ASKED_FIRST)
        },
        Row {
            write_fails: &[2],
            ..ending(&LAB, ASKED, 5, ASKED_RECORDS)
        },
        // There is no further call of either.
        Row {
            read_fails: &[3],
            write_fails: &[3],
            ..ending(&LAB, ASKED, 0, ASKED_REPORT)
        },
        Row {
            write_fails: &[0],
            ..ending(&["show", BUBBLE], "", 5, "")
        },
        Row {
            write_fails: &[0],
            ..ending(&LAB, "", 5, "")
        },
        Row {
            write_fails: &[0],
            ..ending(&["gen", "7", "0"], "", 5, "")
        },
    ];
    for row in rows.iter() {
        assert!(rt; ends_so(rt.alloc(), row)?, "{}", row.written);
    }
    Ok(())
}
