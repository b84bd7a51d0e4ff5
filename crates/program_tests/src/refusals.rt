//! Bytes that are no text, and a text that is too long.
use crate::runs::{LAB, ending_on, ends_so};
use std::test::Fail;
use teredo_app::TEXT_READ_MAX;

#[test]
fn bytes_that_are_no_text(rt: HostRuntime) -> Result<(), Fail> {
    let row = ending_on(&LAB, b"\xff\xfe".as_slice(), 3, "scenario: not toml\n");
    assert!(rt; ends_so(rt.alloc(), &row)?);
    let long = vec![in rt.alloc(); b' '; TEXT_READ_MAX]?;
    let row = ending_on(&LAB, long.as_slice(), 3, "scenario: too long\n");
    assert!(rt; ends_so(rt.alloc(), &row)?);
    Ok(())
}
