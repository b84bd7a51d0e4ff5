//! `follow` on packets between two clients and two native hosts, with words that are none, with a source that fails, and with a
//! sink that does.
use crate::nets::{CLIENT, NATIVE, OTHER_CLIENT, OTHER_NAT, OTHER_NATIVE, PORT_NAT, RELAY, SERVER};
use crate::runs::{NAME, Row, ending, ends_so, text_with};
use std::test::Fail;

const HOME: &[&str] = &[SERVER, PORT_NAT, CLIENT];

const ALL: &[&str] = &[
    SERVER,
    PORT_NAT,
    OTHER_NAT,
    CLIENT,
    OTHER_CLIENT,
    RELAY,
    NATIVE,
    OTHER_NATIVE,
];

const FOLLOW: [&str; 3] = ["follow", NAME, "-"];

/// Both clients get their addresses.
const BEGIN: &str = r#""advance 0", "settle", "advance 12000", "settle", "advance 0", "settle""#;

/// Client `a` sends to `b` and to `h1`, `h2` asks `a` for an echo, and `b` sends to `a` and to `h2`; the first of these two sends
/// fails.
const PACKETS: &str =
    r#""host a b 01", "host a h1 02", "next", "next", "settle", "echo h2 a 7", "settle", "fault 0", "host b a 03", "host b h2 04""#;

const WENT: &str = r#"36 12000 a queued 0 waits
37 12000 a queued 1 waits
43 12000 a rule3_bubble 0 goes #27=198.51.100.1:1024>198.51.100.2:1024/41
45 12000 b rule3 0 arrives
49 12000 a rule2 1 goes #32=198.51.100.1:1024>203.0.113.9:3545/41
50 12000 r1 from_client 1 goes #33=six/41
51 12000 h1 kept 1 arrives
53 12000 h2 sent_six 2 goes #34=six:r1/48
54 12000 r1 sent 2 goes #35=203.0.113.9:3545>198.51.100.1:1024/48
55 12000 a held_test 2 held
59 12000 a rule2 2 arrives
62 12000 b sent 3 goes !fault=198.51.100.1:1024/41
63 12000 b queued 4 waits
packet 0 36 a arrived 45
packet 1 37 a arrived 51
packet 2 53 h2 arrived 59
packet 3 62 b lost 62
packet 4 63 b waits b
total packets 5 arrived 3 waits 1 held 0 wire 0 lost 1
"#;

/// Of five packets three arrive: one that had waited for a way through the server, one that had waited for a relay, and one
/// that was held until the relay was tested. One is lost in a send that fails, and one waits.
#[test]
fn each_packet_has_its_way_and_its_end(rt: HostRuntime) -> Result<(), Fail> {
    let text = text_with(rt.alloc(), ALL, &[BEGIN, PACKETS])?;
    assert!(rt; ends_so(rt.alloc(), &ending(&FOLLOW, text.as_str(), 0, WENT))?);
    Ok(())
}

/// A solicitation is no packet of a host: it has no line.
#[test]
fn what_no_host_hands_in_is_not_followed(rt: HostRuntime) -> Result<(), Fail> {
    let text = text_with(rt.alloc(), HOME, &["\"advance 0\""])?;
    let none = "total packets 0 arrived 0 waits 0 held 0 wire 0 lost 0\n";
    assert!(rt; ends_so(rt.alloc(), &ending(&FOLLOW, text.as_str(), 0, none))?);
    Ok(())
}

/// A packet of a client that has no address yet is dropped: it is a packet all the same, and its record is its last.
#[test]
fn a_packet_that_is_dropped_is_lost(rt: HostRuntime) -> Result<(), Fail> {
    let text = text_with(rt.alloc(), HOME, &["\"host a 2001:db8::1 01\""])?;
    let dropped =
        "0 0 a off 0 ends\npacket 0 0 a lost 0\ntotal packets 1 arrived 0 waits 0 held 0 wire 0 lost 1\n";
    assert!(rt; ends_so(rt.alloc(), &ending(&FOLLOW, text.as_str(), 0, dropped))?);
    Ok(())
}

/// A text that is no scenario is refused before its chain, a chain of one NAT alone is none, and `follow` has two words.
#[test]
fn packets_that_are_not_followed(rt: HostRuntime) -> Result<(), Fail> {
    let text = text_with(rt.alloc(), HOME, &[])?;
    let alone = ["follow", NAME, "n1:n1"];
    let refused = ending(&alone, "", 3, "scenario seed: key\n");
    assert!(rt; ends_so(rt.alloc(), &refused)?);
    assert!(rt;
        ends_so(
            rt.alloc(),
            &ending(&alone, text.as_str(), 12, "follow: chain\n")
        )?
    );
    let short = ["follow", NAME];
    assert!(rt; ends_so(rt.alloc(), &ending(&short, text.as_str(), 2, "words\n"))?);
    let long = ["follow", NAME, "-", "each"];
    assert!(rt; ends_so(rt.alloc(), &ending(&long, text.as_str(), 2, "words\n"))?);
    Ok(())
}

/// A source that fails, and a sink that does.
#[test]
fn ways_that_are_not_written(rt: HostRuntime) -> Result<(), Fail> {
    let text = text_with(rt.alloc(), HOME, &[])?;
    let unread = Row {
        read_fails: &[0],
        ..ending(&FOLLOW, text.as_str(), 4, "")
    };
    assert!(rt; ends_so(rt.alloc(), &unread)?);
    let unwritten = Row {
        write_fails: &[0],
        ..ending(&FOLLOW, text.as_str(), 5, "")
    };
    assert!(rt; ends_so(rt.alloc(), &unwritten)?);
    Ok(())
}
