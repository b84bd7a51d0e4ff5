//! Lines and totals that were worked out by hand.
ghost use Rattle.std.specs.Prelude.{◌≡◌, length};

use crate::nodes::{
    CLIENT, MAPPED, NAT, NATIVE, RELAY, RELAY_AT, SERVER, SERVER_AT, one_long_server, one_of_each,
    one_server,
};
use events::Verb;
use history::{Act, LATES_MAX, Lates, Loss, MARKS_MAX, Mark, Marks, Record};
use report::{Sums, line, summary};
use std::test::Fail;
use td_base::{Ep, Ip4, Ip6, LineBuf, Millis, print_text};
use teredo_node::Fate;
use topology::Topology;

const STRANGER: Ep = Ep {
    ip: Ip4([198, 51, 100, 7]),
    port: 40000,
};

const FARTHEST: Ep = Ep {
    ip: Ip4([255; 4]),
    port: u16::MAX,
};

/// A record without a mark.
fn plain(act: Act, node: Option<u16>, fate: Fate) -> Record
    ensures marks { length result.marks ≡ 0 }
    ensures late { length result.late ≡ 0 }
{
    Record {
        event: 6,
        moment: Millis(12_000),
        act,
        node,
        fate,
        address: None,
        handed: None,
        late: Lates::new(),
        gone: 0,
        marks: Marks::new(),
    }
}

/// A record with one mark.
fn marked(act: Act, node: Option<u16>, fate: Fate, mark: Mark) -> Record
    ensures { length result.marks ≡ 1 }
{
    let mut record = plain(act, node, fate);
    record.marks.push(mark);
    record
}

fn word(verb: Verb) -> Act {
    Act::Plain { verb }
}

/// A client's solicitation, as it comes from the NAT.
fn solicitation() -> Mark {
    Mark::Udp {
        number: 0,
        src: MAPPED,
        dst: SERVER_AT,
        len: 61,
    }
}

fn lost(why: Loss) -> Mark {
    Mark::Lost {
        why,
        dst: MAPPED,
        len: 40,
    }
}

/// Whether a record's line is this.
fn says(t: &Topology, record: &Record, want: &str) -> bool {
    let mut out = LineBuf::new();
    line(9, record, t, &mut out);
    out.as_slice() == want.as_bytes()
}

#[test]
fn each_kind_of_node(rt: HostRuntime) -> Result<(), Fail> {
    let t = one_of_each(rt.alloc())?;
    for (node, want) in [
        (Some(SERVER), "9 12000 6 restart s1 done\n"),
        (Some(NAT), "9 12000 6 restart n1 done\n"),
        (Some(CLIENT), "9 12000 6 restart a done\n"),
        (Some(RELAY), "9 12000 6 restart r1 done\n"),
        (Some(NATIVE), "9 12000 6 restart h1 done\n"),
        (Some(NATIVE + 1), "9 12000 6 restart - done\n"),
        (None, "9 12000 6 restart - done\n"),
    ] {
        let record = plain(word(Verb::Restart), node, Fate::Done);
        assert!(rt; says(&t, &record, want), "{want}");
    }
    Ok(())
}

#[test]
fn each_act(rt: HostRuntime) -> Result<(), Fail> {
    let t = one_of_each(rt.alloc())?;
    for (act, want) in [
        (Act::Tick, "9 12000 6 tick - put\n"),
        (Act::Deliver { number: 18 }, "9 12000 6 deliver:18 - put\n"),
        (Act::Copy { number: 9 }, "9 12000 6 copy:9 - put\n"),
        (word(Verb::Advance), "9 12000 6 advance - put\n"),
        (word(Verb::Deliver), "9 12000 6 deliver - put\n"),
        (word(Verb::Next), "9 12000 6 next - put\n"),
        (word(Verb::Host), "9 12000 6 host - put\n"),
        (word(Verb::Echo), "9 12000 6 echo - put\n"),
        (word(Verb::Raw), "9 12000 6 raw - put\n"),
        (word(Verb::Stranger), "9 12000 6 stranger - put\n"),
        (word(Verb::Copy), "9 12000 6 copy - put\n"),
        (word(Verb::Restart), "9 12000 6 restart - put\n"),
        (word(Verb::Forget), "9 12000 6 forget - put\n"),
        (word(Verb::Fault), "9 12000 6 fault - put\n"),
        (word(Verb::Settle), "9 12000 6 settle - put\n"),
    ] {
        let record = plain(act, None, Fate::Put);
        assert!(rt; says(&t, &record, want), "{want}");
    }
    Ok(())
}

#[test]
fn each_mark(rt: HostRuntime) -> Result<(), Fail> {
    let t = one_of_each(rt.alloc())?;
    let outside = Mark::Six {
        number: 14,
        relay: None,
        len: 56,
    };
    let by_relay = Mark::Six {
        number: 8,
        relay: Some(RELAY),
        len: 41,
    };
    for (mark, want) in [
        (
            solicitation(),
            "9 12000 6 tick a sent #0=198.51.100.1:1024>192.0.2.1:3544/61\n",
        ),
        (outside, "9 12000 6 tick a sent #14=six/56\n"),
        (by_relay, "9 12000 6 tick a sent #8=six:r1/41\n"),
        (
            lost(Loss::Hairpin),
            "9 12000 6 tick a sent !hairpin=198.51.100.1:1024/40\n",
        ),
        (
            lost(Loss::Full),
            "9 12000 6 tick a sent !full=198.51.100.1:1024/40\n",
        ),
    ] {
        let record = marked(Act::Tick, Some(CLIENT), Fate::Sent, mark);
        assert!(rt; says(&t, &record, want), "{want}");
    }
    Ok(())
}

#[test]
fn what_follows_the_fate(rt: HostRuntime) -> Result<(), Fail> {
    let t = one_of_each(rt.alloc())?;
    let mut record = plain(
        Act::Deliver { number: 1 },
        Some(CLIENT),
        Fate::QualifiedCone,
    );
    record.address = Some(Ip6([
        0x20, 1, 0, 0, 0xc0, 0, 2, 1, 0x80, 0, 0xfb, 0xff, 0x39, 0xcc, 0x9b, 0xfe,
    ]));
    assert!(rt;
        says(
            &t,
            &record,
            "9 12000 6 deliver:1 a qualified_cone is 2001:0:c000:201:8000:fbff:39cc:9bfe\n"
        )
    );
    record.handed = Some(45);
    record.late.push(41);
    record.late.push(1280);
    record.gone = 1;
    record.marks.push(Mark::Udp {
        number: 9,
        src: RELAY_AT,
        dst: SERVER_AT,
        len: 40,
    });
    assert!(rt;
        says(
            &t,
            &record,
            "9 12000 6 deliver:1 a qualified_cone is 2001:0:c000:201:8000:fbff:39cc:9bfe handed/45 late/41 late/1280 gone/1 #9=203.0.113.9:3545>192.0.2.1:3544/40\n"
        )
    );
    Ok(())
}

#[test]
fn a_solicitation_and_its_answer(rt: HostRuntime) -> Result<(), Fail> {
    let t = one_server(rt.alloc())?;
    let mut asks = marked(
        word(Verb::Stranger),
        None,
        Fate::Put,
        Mark::Udp {
            number: 0,
            src: STRANGER,
            dst: SERVER_AT,
            len: 61,
        },
    );
    asks.event = 0;
    asks.moment = Millis(0);
    let mut answers = marked(
        Act::Deliver { number: 0 },
        Some(0),
        Fate::Advert,
        Mark::Udp {
            number: 1,
            src: SERVER_AT,
            dst: STRANGER,
            len: 117,
        },
    );
    answers.event = 1;
    answers.moment = Millis(0);
    let mut out = LineBuf::new();
    line(0, &asks, &t, &mut out);
    assert!(rt;
        out.as_slice()
            == b"0 0 0 stranger - put #0=198.51.100.7:40000>192.0.2.1:3544/61\n".as_slice()
    );
    line(1, &answers, &t, &mut out);
    assert!(rt;
        out.as_slice()
            == b"1 0 1 deliver:0 s1 advert #1=192.0.2.1:3544>198.51.100.7:40000/117\n".as_slice()
    );
    let mut sums = Sums::new();
    sums.add(&asks);
    sums.add(&answers);
    summary(&sums, &mut out);
    assert!(rt;
        out.as_slice()
            == b"total records 2 entries 2 delivered 1 handed 0 kept 0 dropped 0\n".as_slice()
    );
    Ok(())
}

#[test]
fn only_an_entry_that_is_there_is_delivered(rt: HostRuntime) {
    let mut out = LineBuf::new();
    let mut sums = Sums::new();
    sums.add(&plain(Act::Deliver { number: 7 }, None, Fate::Kept));
    sums.add(&plain(Act::Deliver { number: 7 }, None, Fate::NoEntry));
    summary(&sums, &mut out);
    assert!(rt;
        out.as_slice()
            == b"total records 2 entries 0 delivered 1 handed 0 kept 1 dropped 1\n".as_slice()
    );
}

#[test]
fn only_what_was_sent_is_an_entry(rt: HostRuntime) {
    let mut out = LineBuf::new();
    let mut sums = Sums::new();
    sums.add(&marked(Act::Tick, Some(CLIENT), Fate::RsCone, solicitation()));
    sums.add(&marked(Act::Tick, Some(CLIENT), Fate::RsCone, lost(Loss::Full)));
    summary(&sums, &mut out);
    assert!(rt;
        out.as_slice()
            == b"total records 2 entries 1 delivered 0 handed 0 kept 0 dropped 0\n".as_slice()
    );
}

#[test]
fn what_a_host_was_handed_is_counted(rt: HostRuntime) {
    let mut record = plain(Act::Deliver { number: 18 }, Some(CLIENT), Fate::Rule3);
    record.handed = Some(45);
    record.late.push(45);
    let mut out = LineBuf::new();
    let mut sums = Sums::new();
    sums.add(&record);
    sums.add(&plain(Act::Deliver { number: 16 }, Some(CLIENT), Fate::Barred));
    summary(&sums, &mut out);
    assert!(rt;
        out.as_slice()
            == b"total records 2 entries 0 delivered 2 handed 2 kept 0 dropped 1\n".as_slice()
    );
}

#[test]
fn the_longest_line(rt: HostRuntime) -> Result<(), Fail> {
    let t = one_long_server(rt.alloc())?;
    let mut want = LineBuf::new();
    let begin =
        b"18446744073709551615 18446744073709551615 4294967295 deliver:4294967295 abcdefghijklmnop qualified_restricted";
    let middle = b" is ffff:ffff:ffff:ffff:ffff:ffff:ffff:ffff handed/18446744073709551615";
    let mark = b" #4294967295=255.255.255.255:65535>255.255.255.255:65535/18446744073709551615";
    print_text(begin, &mut want).ok().ok_or("room")?;
    print_text(middle, &mut want).ok().ok_or("room")?;
    let mut late = Lates::new();
    for _ in 0..LATES_MAX {
        if late.as_slice().len() == LATES_MAX {
            break;
        }
        late.push(usize::MAX);
        print_text(b" late/18446744073709551615", &mut want)
            .ok()
            .ok_or("room")?;
    }
    print_text(b" gone/65535", &mut want).ok().ok_or("room")?;
    let mut marks = Marks::new();
    for _ in 0..MARKS_MAX {
        if marks.as_slice().len() == MARKS_MAX {
            break;
        }
        marks.push(Mark::Udp {
            number: u32::MAX,
            src: FARTHEST,
            dst: FARTHEST,
            len: usize::MAX,
        });
        print_text(mark, &mut want).ok().ok_or("room")?;
    }
    print_text(b"\n", &mut want).ok().ok_or("room")?;
    let record = Record {
        event: u32::MAX,
        moment: Millis(u64::MAX),
        act: Act::Deliver { number: u32::MAX },
        node: Some(SERVER),
        fate: Fate::QualifiedRestricted,
        address: Some(Ip6([0xff; 16])),
        handed: Some(usize::MAX),
        late,
        gone: u16::MAX,
        marks,
    };
    let mut out = LineBuf::new();
    line(u64::MAX, &record, &t, &mut out);
    assert!(rt; out.as_slice() == want.as_slice());
    assert!(rt; out.as_slice().len() == 989);
    Ok(())
}
