//! `reach` on one host alone, with a source that fails, and with a sink that does.
use crate::nets::{CLIENT, CONE_NAT, SERVER};
use crate::runs::{NAME, Row, ending, ends_so, text_with};
use std::test::Fail;

const ALONE: &[&str] = &[SERVER, CONE_NAT, CLIENT];

/// One host alone is in no pair.
#[test]
fn nobody_to_reach(rt: HostRuntime) -> Result<(), Fail> {
    let text = text_with(rt.alloc(), ALONE, &[])?;
    let words = ["reach", NAME, "-"];
    let none = "total pairs 0 within 0 shut 0 unsaid 0\n";
    assert!(rt; ends_so(rt.alloc(), &ending(&words, text.as_str(), 0, none))?);
    Ok(())
}

/// A source that fails, and a sink that does.
#[test]
fn words_that_are_not_written(rt: HostRuntime) -> Result<(), Fail> {
    let text = text_with(rt.alloc(), ALONE, &[])?;
    let words = ["reach", NAME, "-"];
    let unread = Row {
        read_fails: &[0],
        ..ending(&words, text.as_str(), 4, "")
    };
    assert!(rt; ends_so(rt.alloc(), &unread)?);
    let unwritten = Row {
        write_fails: &[0],
        ..ending(&words, text.as_str(), 5, "")
    };
    assert!(rt; ends_so(rt.alloc(), &unwritten)?);
    Ok(())
}
