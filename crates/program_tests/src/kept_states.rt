//! `state` on one client, with a word that isn't one yet, with a source that fails, and with a sink that does.
use crate::nets::{CLIENT, PORT_NAT, SERVER};
use crate::runs::{NAME, Row, ending, ends_so, text_with};
use std::test::Fail;

const HOME: &[&str] = &[SERVER, PORT_NAT, CLIENT];

const EACH: [&str; 4] = ["state", NAME, "-", "each"];

const KEPT: &str = r#"- 0 n1 -
- 0 a cone - due 0
0 0 a cone - due 4000
0 0 n1 port 1024 inside 10.0.0.2:4000 until 60000
0 0 n1 port 1024 lets 192.0.2.1:3544 until 60000
total records 2
"#;

/// The first solicitation opens a port, and lets the server in there.
#[test]
fn a_first_solicitation_opens_a_port(rt: HostRuntime) -> Result<(), Fail> {
    let text = text_with(rt.alloc(), HOME, &["\"advance 0\""])?;
    assert!(rt; ends_so(rt.alloc(), &ending(&EACH, text.as_str(), 0, KEPT))?);
    Ok(())
}

/// A chain of one NAT alone is none, and what is kept in the end isn't told yet.
#[test]
fn states_that_are_not_told(rt: HostRuntime) -> Result<(), Fail> {
    let text = text_with(rt.alloc(), HOME, &[])?;
    let alone = ["state", NAME, "n1:n1", "each"];
    assert!(rt;
        ends_so(
            rt.alloc(),
            &ending(&alone, text.as_str(), 12, "state: chain\n")
        )?
    );
    let last = ["state", NAME, "-", "last"];
    assert!(rt; ends_so(rt.alloc(), &ending(&last, text.as_str(), 2, "words\n"))?);
    Ok(())
}

/// A source that fails, and a sink that does.
#[test]
fn states_that_are_not_written(rt: HostRuntime) -> Result<(), Fail> {
    let text = text_with(rt.alloc(), HOME, &[])?;
    let unread = Row {
        read_fails: &[0],
        ..ending(&EACH, text.as_str(), 4, "")
    };
    assert!(rt; ends_so(rt.alloc(), &unread)?);
    let unwritten = Row {
        write_fails: &[0],
        ..ending(&EACH, text.as_str(), 5, "")
    };
    assert!(rt; ends_so(rt.alloc(), &unwritten)?);
    Ok(())
}
