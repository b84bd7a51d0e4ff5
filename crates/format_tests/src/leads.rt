//! Authentications and origins, read and written.
ghost use Rattle.std.specs.Prelude.{◌≤◌};

use crate::vectors::HOST;
use indications::{LeadFault, Origin, read, write};
use std::test::Fail;
use td_base::{Room, Span};

/// The nonce 0102030405060708, and the origin of `HOST`, then a packet's first byte.
const BOTH: &str = "00010000010203040506070800000063bf39cc9bf860";

fn begin(bytes: &[u8; 22], len: usize) -> &[u8]
    requires { len ≤ 22 }
{
    &bytes[..len]
}

/// Where the block begins that is cut after so many bytes of `BOTH`.
fn cut_block(len: usize) -> usize {
    match len {
        0..=12 => 0,
        13..=20 => 13,
        _ => 21,
    }
}

#[test]
fn both_blocks(rt: HostRuntime) -> Result<(), Fail> {
    let mut bytes = [0u8; 22];
    hex::decode_to_slice(BOTH, &mut bytes).ok().ok_or("hex")?;
    let lead = read(&bytes).ok().ok_or("a lead")?;
    let auth = lead.auth.ok_or("an authentication")?;
    assert!(rt; (auth.nonce, auth.confirmation, lead.at) == (0x0102_0304_0506_0708, 0, 21));
    assert!(rt; lead.origin == Some(Origin { ep: HOST }));
    let mut out = [0u8; 21];
    assert!(rt; write(Some(auth.nonce), Some(HOST), &mut out) == Ok(21));
    assert!(rt; out.as_slice() == begin(&bytes, 21));
    let mut short = [0u8; 20];
    assert!(rt; write(Some(auth.nonce), Some(HOST), &mut short) == Err(Room { needed: 21 }));
    for len in 0..22 {
        let at = cut_block(len);
        assert!(rt;
            read(begin(&bytes, len)).err() == Some(LeadFault::Cut { at }),
            "at {len}"
        );
    }
    Ok(())
}

#[test]
fn identifier_and_value(rt: HostRuntime) -> Result<(), Fail> {
    let bytes = [0, 1, 2, 1, 7, 7, 9, 0, 0, 0, 0, 0, 0, 0, 5, 3, 0x60];
    let lead = read(&bytes).ok().ok_or("a lead")?;
    let auth = lead.auth.ok_or("an authentication")?;
    assert!(rt; (auth.id, auth.value) == (Span { at: 4, len: 2 }, Span { at: 6, len: 1 }));
    assert!(rt; (auth.nonce, auth.confirmation, lead.at) == (5, 3, 16));
    Ok(())
}

#[test]
fn each_fault_of_a_lead(rt: HostRuntime) {
    let origin_twice = [0, 0, 1, 2, 3, 4, 5, 6, 0, 0, 1, 2, 3, 4, 5, 6, 0x60];
    let origin_first = [0, 0, 1, 2, 3, 4, 5, 6, 0, 1, 0, 0];
    for (found, want) in [
        (read(&origin_twice), LeadFault::Order { at: 8 }),
        (read(&origin_first), LeadFault::Order { at: 8 }),
        (read(&[0x45, 0]), LeadFault::Kind { at: 0, byte: 0x45 }),
        (read(&[0, 2]), LeadFault::Kind { at: 1, byte: 2 }),
    ] {
        assert!(rt; found.err() == Some(want));
    }
}
