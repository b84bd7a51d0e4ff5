//! Words, and the text that explains them.
use crate::vectors::{ADVERTISEMENT, BUBBLE, ORIGIN, SOLICITATION};
use show::{Page, explain};
use std::alloc::{AllocError, Global};
use std::process::Abort;
use std::test::Fail;

/// The lines of the bubble behind those of what stands in front.
const BUBBLE_LINES: &[u8] = b"packet class 0 flow 0 next 59 hop 255 length 0
source 2001:0:4136:e378:8000:63bf:3fff:fdd2
teredo server 65.54.227.120 flags 8000 mapped 192.0.2.45:40000
destination 2001:0:4136:e378:0:63bf:39cc:9bf8
teredo server 65.54.227.120 flags 0000 mapped 198.51.100.7:40000
body bubble -
";

/// Explains a word on a page that held something else.
fn check(rt: &impl Abort, word: &[u8], text: &[u8], found: bool) {
    let mut page = Page::new();
    page.push_text(b"before\n");
    assert!(rt; explain(word, &mut page) == found, "the answer");
    assert!(rt; page.as_slice() == text, "the text");
}

#[test]
fn explains_payloads(rt: HostRuntime) {
    let cases = [
        // A solicitation's answer: authentication, origin, a message.
        (
            ADVERTISEMENT,
            "auth id - value - nonce 0102030405060708 confirmation 0
origin 198.51.100.7:40000
packet class 0 flow 0 next 58 hop 255 length 56
source fe80::8000:f227:3fff:fdfe
destination fe80::63bf:39cc:9bf8
body icmp 8600639800000000000000000000000003044040ffffffffffffffff0000000020010000c000020100000000000000000501000000000500
",
        ),
        // An identifier and a value, a nonce of zeros, and a packet with every number.
        (
            "00010201abcd0f000000000000000007612345670002114020010db800000000000000000000000120010db8000000000000000000000002abcd",
            "auth id abcd value 0f nonce 0000000000000000 confirmation 7
origin none
packet class 18 flow 214375 next 17 hop 64 length 2
source 2001:db8::1
destination 2001:db8::2
body data abcd
",
        ),
        // A message of no bytes.
        (
            "6000000000003a0000000000000000000000000000000000ff020000000000000000000000000002",
            "auth none
origin none
packet class 0 flow 0 next 58 hop 0 length 0
source ::
destination ff02::2
body icmp -
",
        ),
        // No next header, but a body.
        (
            "6000000000013bff00000000000000000000000000000000ff020000000000000000000000000002ff",
            "auth none
origin none
packet class 0 flow 0 next 59 hop 255 length 1
source ::
destination ff02::2
body data ff
",
        ),
    ];
    for (word, text) in cases {
        check(&rt, word.as_bytes(), text.as_bytes(), true);
    }
}

#[test]
fn tells_first_faults(rt: HostRuntime) {
    let cases = [
        ("-", "fault hex at 0\n"),
        ("0", "fault hex at 1\n"),
        ("00g1", "fault hex at 2\n"),
        ("0g1", "fault hex at 1\n"),
        ("60 0", "fault hex at 2\n"),
        ("", "fault cut at 0\n"),
        ("00", "fault cut at 0\n"),
        ("000063bf39cc9b", "fault cut at 0\n"),
        ("000063bf39cc9bf8", "fault cut at 8\n"),
        ("000063bf39cc9bf80001", "fault order at 8\n"),
        ("01", "fault kind 01 at 0\n"),
        ("00Fe", "fault kind fe at 1\n"),
        ("000063bf39cc9bf8000a", "fault kind 0a at 9\n"),
        ("60", "fault short 1 at 0\n"),
    ];
    for (word, text) in cases {
        check(&rt, word.as_bytes(), text.as_bytes(), false);
    }
}

/// All digits but the last two.
fn a_byte_less(word: &[u8]) -> &[u8] {
    match word {
        [front @ .., _, _] => front,
        _ => word,
    }
}

#[test]
fn tells_first_faults_of_datagrams(rt: HostRuntime) -> Result<(), Fail> {
    let mut origin_first = Vec::from_slice(rt.alloc(), ORIGIN.as_bytes())?;
    origin_first.extend_from_slice(SOLICITATION.as_bytes())?;
    check(&rt, origin_first.as_slice(), b"fault order at 8\n", false);
    let short = a_byte_less(BUBBLE.as_bytes());
    check(&rt, short, b"fault short 39 at 0\n", false);
    let short = a_byte_less(SOLICITATION.as_bytes());
    check(&rt, short, b"fault length said 8 there 7 at 13\n", false);
    Ok(())
}

#[test]
fn tells_how_many_bytes_are_too_many(rt: HostRuntime) -> Result<(), Fail> {
    let word = vec![in rt.alloc(); b'0'; 2804]?;
    check(&rt, &word.as_slice()[..2802], b"fault long 1401\n", false);
    check(&rt, &word.as_slice()[..2803], b"fault hex at 2803\n", false);
    check(&rt, &word.as_slice()[..2800], b"fault order at 8\n", false);
    Ok(())
}

/// Explains a bubble behind what stands in front.
fn check_bubble(
    rt: &impl Abort,
    alloc: Global,
    front: &[u8],
    lines: &[u8],
) -> Result<(), AllocError> {
    let mut word = Vec::from_slice(alloc, front)?;
    word.extend_from_slice(BUBBLE.as_bytes())?;
    let mut text = Vec::from_slice(alloc, lines)?;
    text.extend_from_slice(BUBBLE_LINES)?;
    check(rt, word.as_slice(), text.as_slice(), true);
    Ok(())
}

#[test]
fn explains_a_bubble(rt: HostRuntime) -> Result<(), Fail> {
    check_bubble(&rt, rt.alloc(), b"", b"auth none\norigin none\n")?;
    Ok(())
}

/// An identifier and a value of 255 bytes each.
#[test]
fn shows_the_longest_keys(rt: HostRuntime) -> Result<(), Fail> {
    let alloc = rt.alloc();
    let id = vec![in alloc; b'3'; 510]?;
    let value = vec![in alloc; b'e'; 510]?;
    let mut front = Vec::from_slice(alloc, b"0001ffff")?;
    front.extend_from_slice(id.as_slice())?;
    front.extend_from_slice(value.as_slice())?;
    front.extend_from_slice(b"ffffffffffffffffff")?;
    let mut lines = Vec::from_slice(alloc, b"auth id ")?;
    lines.extend_from_slice(id.as_slice())?;
    lines.extend_from_slice(b" value ")?;
    lines.extend_from_slice(value.as_slice())?;
    lines.extend_from_slice(b" nonce ffffffffffffffff confirmation 255\norigin none\n")?;
    check_bubble(&rt, alloc, front.as_slice(), lines.as_slice())?;
    Ok(())
}
