//! A datagram that is cut short, at each length.
use crate::runs::{LAB, ending, ends_so};
use crate::vectors::SOLICITATION;
use std::alloc::Global;
use std::test::Fail;
use td_base::NoMemory;

/// Where the packet of the solicitation begins: behind its authentication.
const PACKET_AT: usize = 13;

/// How many bytes the packet's header has.
const HEADER_LEN: usize = 40;

const DIGITS: [u8; 16] = *b"0123456789abcdef";

/// The first bytes of the solicitation, as digits.
fn digits(alloc: Global, len: usize) -> Result<String, NoMemory> {
    let mut text = String::new(alloc);
    for byte in SOLICITATION.iter().take(len) {
        text.push(char::from(DIGITS[usize::from(*byte >> 4)]))?;
        text.push(char::from(DIGITS[usize::from(*byte & 15)]))?;
    }
    Ok(text)
}

/// What `show` says of them.
fn fault(alloc: Global, len: usize) -> Result<String, NoMemory> {
    let behind = len.saturating_sub(PACKET_AT);
    if len < PACKET_AT {
        return Ok(String::from_str(alloc, "fault cut at 0\n")?);
    }
    if behind == 0 {
        return Ok(String::from_str(alloc, "fault cut at 13\n")?);
    }
    if behind < HEADER_LEN {
        return Ok(format!(in alloc; "fault short {behind} at 13\n")?);
    }
    let there = behind.saturating_sub(HEADER_LEN);
    Ok(format!(in alloc; "fault length said 8 there {there} at 13\n")?)
}

#[test]
fn each_cut_has_its_fault(rt: HostRuntime) -> Result<(), Fail> {
    for len in 0..SOLICITATION.len() {
        let word = digits(rt.alloc(), len)?;
        let wanted = fault(rt.alloc(), len)?;
        let words = ["show", word.as_str()];
        let row = ending(&words, "", 1, wanted.as_str());
        assert!(rt; ends_so(rt.alloc(), &row)?, "{len} bytes");
    }
    Ok(())
}

const ITS_SERVER: &str =
    "]\nserver = [{ name = \"s1\", primary = \"192.0.2.1\", secondary = \"192.0.2.2\" }]\n";

/// A scenario in which a server gets the first `len` bytes, and its report.
fn cut_at_a_server(alloc: Global, len: usize) -> Result<(String, String), NoMemory> {
    let mut bytes = digits(alloc, len)?;
    if len == 0 {
        bytes.push('-')?;
    }
    let text = format!(in alloc;
        "seed = 1\nevents = [\"stranger 198.51.100.7:40000 192.0.2.1:3544 {bytes}\", \"settle\"{ITS_SERVER}"
    )?;
    let report = format!(in alloc;
        "0 0 0 stranger - put #0=198.51.100.7:40000>192.0.2.1:3544/{len}\n\
         1 0 1 deliver:0 s1 malformed\n\
         2 0 1 settle - done\n\
         total records 3 entries 1 delivered 1 handed 0 kept 0 dropped 1\n"
    )?;
    Ok((text, report))
}

#[test]
fn a_server_drops_each_cut(rt: HostRuntime) -> Result<(), Fail> {
    for len in 0..SOLICITATION.len() {
        let (text, report) = cut_at_a_server(rt.alloc(), len)?;
        let row = ending(&LAB, text.as_str(), 0, report.as_str());
        assert!(rt; ends_so(rt.alloc(), &row)?, "{len} bytes");
    }
    Ok(())
}
