//! `serve` over a link and a clock in memory.
use crate::vectors::{ANSWER_LEN, CLIENT, ROOM, SOLICITATION, TO_A_HOST, words_of};
use std::alloc::Global;
use std::test::Fail;
use td_base::{Millis, NoMemory, Octets, Side};
use td_outside::{MemArrival, MemLink, MemSink, MemSource, TestClock};
use teredo_app::run;

/// How many attempts the link has room for.
const ATTEMPTS: usize = 16;

/// What comes.
#[derive(Clone, Copy)]
enum Comes {
    Solicitation,
    ToAHost,
    NoPayload,
    Nothing,
}

/// A run: what comes, its COUNT and IDLES, which calls fail, and then its status, what was written and how many
/// answers were attempted.
#[derive(Clone, Copy)]
struct Row<'a> {
    comes: &'a [Comes],
    count: &'a str,
    idles: &'a str,
    recv_fails: &'a [u64],
    send_fails: &'a [u64],
    write_fails: &'a [u64],
    status: u8,
    written: &'a str,
    attempts: usize,
}

const ONE_SOLICITATION: Row = Row {
    comes: &[Comes::Solicitation],
    count: "1",
    idles: "50",
    recv_fails: &[],
    send_fails: &[],
    write_fails: &[],
    status: 0,
    written: "served 1 sent 1 failed 0 six 0 dropped 0\n",
    attempts: 1,
};

fn arrival(alloc: Global, comes: Comes) -> Result<MemArrival, NoMemory> {
    let bytes: &[u8] = match comes {
        Comes::Solicitation => &SOLICITATION,
        Comes::ToAHost => &TO_A_HOST,
        Comes::NoPayload => b"none",
        Comes::Nothing => return Ok(MemArrival::Idle),
    };
    Ok(MemArrival::Got {
        side: Side::Primary,
        from: CLIENT,
        bytes: Octets::new(alloc, bytes)?,
    })
}

/// Whether the run ends so.
fn ends_so(alloc: Global, row: &Row) -> Result<bool, NoMemory> {
    let words = words_of(
        alloc,
        &["serve", "127.0.0.1", "127.0.0.2", row.count, row.idles],
    )?;
    let mut arrivals = Vec::new(alloc);
    for comes in row.comes {
        arrivals.push(arrival(alloc, *comes)?)?;
    }
    let mut source = MemSource::new(alloc, "", b"", &[])?;
    let mut sink = MemSink::new(alloc, ROOM, row.write_fails)?;
    let mut link = MemLink::new(alloc, arrivals, ATTEMPTS, row.recv_fails, row.send_fails)?;
    let mut clock = TestClock::new([Millis(0); 4]);
    let status = run(alloc, &words, &mut source, &mut sink, &mut link, &mut clock);
    let mut answers = true;
    for attempt in link.attempts() {
        answers = answers
            && attempt.side() == Side::Primary
            && attempt.to() == CLIENT
            && attempt.bytes().len() == ANSWER_LEN;
    }
    Ok(
        answers
            && status == row.status
            && sink.as_slice() == row.written.as_bytes()
            && link.attempts().len() == row.attempts,
    )
}

#[test]
fn arrivals_are_answered(rt: HostRuntime) -> Result<(), Fail> {
    let rows = [
        ONE_SOLICITATION,
        Row {
            send_fails: &[0],
            written: "served 1 sent 0 failed 1 six 0 dropped 0\n",
            ..ONE_SOLICITATION
        },
        // The link can't be opened.
        Row {
            recv_fails: &[0],
            status: 6,
            written: "",
            attempts: 0,
            ..ONE_SOLICITATION
        },
        // The second arrival can't be taken.
        Row {
            count: "2",
            recv_fails: &[2],
            status: 6,
            written: "",
            ..ONE_SOLICITATION
        },
        Row {
            write_fails: &[0],
            status: 5,
            written: "",
            ..ONE_SOLICITATION
        },
        // No arrival is asked for: a call that takes one would fail.
        Row {
            count: "0",
            recv_fails: &[1],
            written: "served 0 sent 0 failed 0 six 0 dropped 0\n",
            attempts: 0,
            ..ONE_SOLICITATION
        },
        // Two idle turns in a row end it.
        Row {
            comes: &[
                Comes::Solicitation,
                Comes::Nothing,
                Comes::ToAHost,
                Comes::Nothing,
                Comes::NoPayload,
                Comes::Nothing,
                Comes::Nothing,
                Comes::Solicitation,
            ],
            count: "1000000000",
            idles: "2",
            written: "served 3 sent 1 failed 0 six 1 dropped 1\n",
            ..ONE_SOLICITATION
        },
    ];
    for row in rows.iter() {
        assert!(rt; ends_so(rt.alloc(), row)?, "{}", row.written);
    }
    Ok(())
}
