//! Captures, read and written.
use crate::vectors::{
    ADVERTISEMENT, CAPTURE_HEAD, FIRST_RECORD, SECOND_RECORD, SOLICITATION, bytes_of,
};
use std::alloc::Global;
use std::test::Fail;
use td_base::Room;
use td_pcap::{CapFault, HEAD, Head, KEPT_MAX, Rec, next, read_head, write_head, write_rec};

/// The head of `CAPTURE_HEAD`.
const NETWORK: Head = Head {
    little: false,
    nano: false,
    zone: 0,
    figs: 0,
    snap: 65_535,
};

/// A solicitation and its advertisement, as they were captured.
fn capture(alloc: Global) -> Result<Vec<u8>, Fail> {
    let mut file = bytes_of(alloc, CAPTURE_HEAD)?;
    for part in [FIRST_RECORD, SOLICITATION, SECOND_RECORD, ADVERTISEMENT] {
        file.extend_from_slice(&bytes_of(alloc, part)?)?;
    }
    Ok(file)
}

/// The first fault of a head and two records.
fn fault_of(bytes: &[u8]) -> Option<CapFault> {
    let head = match read_head(bytes) {
        Ok(head) => head,
        Err(fault) => return Some(fault),
    };
    match next(&head, bytes, HEAD) {
        Ok(None) => None,
        Ok(Some((_, end))) => next(&head, bytes, end).err(),
        Err(fault) => Some(fault),
    }
}

#[test]
fn a_capture_both_ways(rt: HostRuntime) -> Result<(), Fail> {
    let file = capture(rt.alloc())?;
    let head = read_head(&file).ok().ok_or("a head")?;
    assert!(rt; head == NETWORK);
    let (first, end) = next(&head, &file, HEAD).ok().flatten().ok_or("a record")?;
    assert!(rt; (first.sec, first.frac, first.orig, first.bytes.len(), end) == (0, 0, 89, 89, 129));
    let (second, last) = next(&head, &file, end)
        .ok()
        .flatten()
        .ok_or("a second record")?;
    assert!(rt;
        (
            second.sec,
            second.frac,
            second.orig,
            second.bytes.len(),
            last
        ) == (0, 0, 145, 145, 290)
    );
    assert!(rt; next(&head, &file, last).ok().ok_or("the end")?.is_none());
    let mut again = vec![in rt.alloc(); 0; 290]?;
    assert!(rt; write_head(&head, &mut again) == Ok(24));
    assert!(rt; write_rec(&head, &first, &mut again[24..]) == Ok(105));
    assert!(rt; write_rec(&head, &second, &mut again[129..]) == Ok(161));
    assert!(rt; again == file);
    Ok(())
}

#[test]
fn a_byte_too_few_to_write(rt: HostRuntime) {
    let mut short = [0u8; 23];
    assert!(rt; write_head(&NETWORK, &mut short) == Err(Room { needed: 24 }));
    let packet = Rec {
        sec: 1,
        frac: 2,
        orig: 3,
        bytes: &[0x45; 8],
    };
    assert!(rt; write_rec(&NETWORK, &packet, &mut short) == Err(Room { needed: 24 }));
}

#[test]
fn cut_at_every_length(rt: HostRuntime) -> Result<(), Fail> {
    let file = capture(rt.alloc())?;
    for len in 0..file.len() {
        let want = match len {
            0..=23 => Some(CapFault::Cut { at: 0 }),
            24 | 129 => None,
            25..=128 => Some(CapFault::Cut { at: 24 }),
            _ => Some(CapFault::Cut { at: 129 }),
        };
        assert!(rt; fault_of(&file[..len]) == want, "at {len}");
    }
    Ok(())
}

#[test]
fn each_form_of_a_head(rt: HostRuntime) -> Result<(), Fail> {
    for (text, little, nano) in [
        (
            "a1b2c3d4000200040000000100000002000000400000006500",
            false,
            false,
        ),
        (
            "a1b23c4d000200040000000100000002000000400000006500",
            false,
            true,
        ),
        (
            "d4c3b2a1020004000100000002000000400000006500000000",
            true,
            false,
        ),
        (
            "4d3cb2a1020004000100000002000000400000006500000000",
            true,
            true,
        ),
    ] {
        let bytes = bytes_of(rt.alloc(), text)?;
        let head = Head {
            little,
            nano,
            zone: 1,
            figs: 2,
            snap: 64,
        };
        assert!(rt; read_head(&bytes) == Ok(head));
        let mut out = [0u8; 25];
        assert!(rt; write_head(&head, &mut out) == Ok(24));
        assert!(rt; out.as_slice() == bytes.as_slice());
        let packet = Rec {
            sec: 1,
            frac: 2,
            orig: 3,
            bytes: &[0x45],
        };
        let mut record = [0u8; 17];
        assert!(rt; write_rec(&head, &packet, &mut record) == Ok(17));
        assert!(rt;
            (record[0], record[3], record[8], record[11])
                == if little { (1, 0, 1, 0) } else { (0, 1, 0, 1) }
        );
    }
    Ok(())
}

#[test]
fn each_fault_of_a_capture(rt: HostRuntime) -> Result<(), Fail> {
    for (text, want) in [
        (
            "a1b2c3d40002000400000000000000000000ffff00000001",
            CapFault::Link { said: 1 },
        ),
        (
            "d4c3b2a10200040000000000000000000000ffff00000065",
            CapFault::Link { said: 0x6500_0000 },
        ),
        (
            "a1b2c3d40002000300000000000000000000ffff00000001",
            CapFault::Version { major: 2, minor: 3 },
        ),
        (
            "a1b2c3d40400020000000000000000000000ffff00000065",
            CapFault::Version {
                major: 0x400,
                minor: 0x200,
            },
        ),
        (
            "0a0d0d0a0002000300000000000000000000ffff00000001",
            CapFault::Magic { said: 0x0a0d_0d0a },
        ),
        (
            "a1b2c3d40002000400000000000000000000ffff00000065000000000000000000010000",
            CapFault::Cut { at: 24 },
        ),
        (
            "a1b2c3d40002000400000000000000000000ffff0000006500000000000000000001000000000001",
            CapFault::Big {
                at: 24,
                said: 65_536,
            },
        ),
        (
            "a1b2c3d40002000400000000000000000000ffff0000006500000000000000000000ffff00000001",
            CapFault::Cut { at: 24 },
        ),
    ] {
        assert!(rt;
            fault_of(&bytes_of(rt.alloc(), text)?) == Some(want),
            "{text}"
        );
    }
    Ok(())
}

#[test]
fn the_most_bytes_of_a_record(rt: HostRuntime) -> Result<(), Fail> {
    let bytes = vec![in rt.alloc(); 0x60; 65_535]?;
    assert!(rt; bytes.len() == KEPT_MAX);
    let packet = Rec {
        sec: u32::MAX,
        frac: u32::MAX,
        orig: u32::MAX,
        bytes: &bytes,
    };
    let mut out = vec![in rt.alloc(); 0; 65_551]?;
    assert!(rt; write_rec(&NETWORK, &packet, &mut out) == Ok(65_551));
    let (again, end) = next(&NETWORK, &out, 0).ok().flatten().ok_or("a record")?;
    assert!(rt; (again.sec, again.frac, again.orig, end) == (u32::MAX, u32::MAX, u32::MAX, 65_551));
    assert!(rt; again.bytes == bytes.as_slice());
    Ok(())
}
