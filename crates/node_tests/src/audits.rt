//! Captures that another program made, and verdicts on them.
use std::alloc::Global;
use std::test::Fail;
use td_audit::{AuditFault, Verdict, audit};
use td_base::Ip4;
use td_pcap::CapFault;

const PRIMARY: Ip4 = Ip4([192, 0, 2, 1]);

const SECONDARY: Ip4 = Ip4([192, 0, 2, 2]);

/// The head of a capture.
const HEAD: &str = "a1b2c3d40002000400000000000000000000ffff00000065";

/// A client's solicitation to the server.
const ASKED: &str =
    "00000000000000000000005900000059450000590000000040118e58c6336407c00002019c400dd80045935f000100000102030405060708006000000000083afffe80000000000000000063bf39cc9bf8ff020000000000000000000000000002850043b300000000";

/// The advertisement that the server sends on it.
const ANSWERED: &str =
    "00000000000000000000009100000091450000910000000040118e20c0000201c63364070dd89c40007d0eb600010000010203040506070800000063bf39cc9bf86000000000383afffe800000000000008000f2273ffffdfefe80000000000000000063bf39cc9bf88600639800000000000000000000000003044040ffffffffffffffff0000000020010000c000020100000000000000000501000000000500";

/// The same advertisement with another time to live and no checksums.
const ANSWERED_OTHERWISE: &str =
    "00000007000000080000009100000091451000910000400001110000c0000201c63364070dd89c40007d000000010000010203040506070800000063bf39cc9bf86000000000383afffe800000000000008000f2273ffffdfefe80000000000000000063bf39cc9bf88600639800000000000000000000000003044040ffffffffffffffff0000000020010000c000020100000000000000000501000000000500";

/// The advertisement, from the server to itself.
const TO_ITSELF: &str =
    "0000000000000000000000910000009145000091000000004011b3ebc0000201c00002010dd80dd8007d000000010000010203040506070800000063bf39cc9bf86000000000383afffe800000000000008000f2273ffffdfefe80000000000000000063bf39cc9bf88600639800000000000000000000000003044040ffffffffffffffff0000000020010000c000020100000000000000000501000000000500";

/// A record with no packet in it.
const EMPTY: &str = "00000000000000000000000000000000";

fn capture(alloc: Global, records: &[&str]) -> Result<Vec<u8>, Fail> {
    let mut file = hex::decode(alloc, HEAD).ok().ok_or("hex")?;
    for record in records {
        file.extend_from_slice(&hex::decode(alloc, record).ok().ok_or("hex")?)?;
    }
    Ok(file)
}

fn clean(packets: u64, to: u64, from: u64, skipped: u64) -> Verdict {
    Verdict::Clean {
        packets,
        to,
        from,
        skipped,
    }
}

#[test]
fn verdicts(rt: HostRuntime) -> Result<(), Fail> {
    for (records, want) in [
        ([].as_slice(), clean(0, 0, 0, 0)),
        ([ASKED, ANSWERED].as_slice(), clean(2, 1, 1, 0)),
        (
            [ANSWERED, ASKED].as_slice(),
            Verdict::Unlicensed { place: 0 },
        ),
        (
            [ASKED, ANSWERED, ANSWERED].as_slice(),
            Verdict::Unlicensed { place: 2 },
        ),
        (
            [ASKED, ASKED, ANSWERED, ANSWERED].as_slice(),
            clean(4, 2, 2, 0),
        ),
        ([ASKED, ANSWERED_OTHERWISE].as_slice(), clean(2, 1, 1, 0)),
        (
            [EMPTY, ASKED, EMPTY, ANSWERED].as_slice(),
            clean(4, 1, 1, 2),
        ),
        (
            [EMPTY, ANSWERED].as_slice(),
            Verdict::Unlicensed { place: 1 },
        ),
        (
            [ASKED, TO_ITSELF].as_slice(),
            Verdict::Unlicensed { place: 1 },
        ),
    ] {
        let file = capture(rt.alloc(), records)?;
        assert!(rt; audit(rt.alloc(), PRIMARY, SECONDARY, &file) == Ok(want));
    }
    Ok(())
}

#[test]
fn another_server_is_skipped(rt: HostRuntime) -> Result<(), Fail> {
    let file = capture(rt.alloc(), &[ANSWERED, ASKED])?;
    let other = Ip4([203, 0, 113, 1]);
    assert!(rt; audit(rt.alloc(), other, SECONDARY, &file) == Ok(clean(2, 0, 0, 2)));
    Ok(())
}

#[test]
fn a_fault_behind_what_is_unlicensed(rt: HostRuntime) -> Result<(), Fail> {
    let file = capture(rt.alloc(), &[ANSWERED, "00"])?;
    assert!(rt;
        audit(rt.alloc(), PRIMARY, SECONDARY, &file)
            == Err(AuditFault::Capture(CapFault::Cut { at: 185 }))
    );
    assert!(rt;
        audit(rt.alloc(), PRIMARY, SECONDARY, &[])
            == Err(AuditFault::Capture(CapFault::Cut { at: 0 }))
    );
    Ok(())
}
