//! Events of each word as texts and back, and the places of faults.
use crate::sample::nodes;
use events::{EventFault, print_event, read_event};
use std::alloc::Global;
use std::test::*;
use topology::Topology;

/// Whether the event that a text asks for prints as another text.
fn prints_as(alloc: Global, t: &Topology, text: &str, wanted: &str) -> Result<bool, Fail> {
    let event = read_event(alloc, t, text.as_bytes())?;
    let printed = print_event(alloc, t, &event)?;
    Ok(printed.as_slice() == wanted.as_bytes())
}

/// The place of a text's fault, if it has one.
fn fault_place(alloc: Global, t: &Topology, text: &str) -> Result<Option<usize>, EventFault> {
    match read_event(alloc, t, text.as_bytes()) {
        Ok(_) => Ok(None),
        Err(EventFault::At { place }) => Ok(Some(place)),
        Err(EventFault::NoMemory) => Err(EventFault::NoMemory),
    }
}

#[test]
fn each_event_prints_as_its_text(rt: HostRuntime) -> Result<(), Fail> {
    let t = nodes(rt.alloc())?;
    for text in [
        "advance 0",
        "advance 1000000000",
        "deliver 65535",
        "next",
        "host a h1 68656c6c6f",
        "host h1 a -",
        "host a 2001:db8::1 ff",
        "echo a a 65535",
        "raw h1 00",
        "raw a -",
        "stranger 198.51.100.7:40000 192.0.2.1:3544 0aff",
        "copy 9 203.0.113.5:1024 198.51.100.1:0",
        "restart s1",
        "restart n2",
        "restart a",
        "restart r1",
        "restart h1",
        "forget n1 a",
        "fault 0",
        "fault 7",
        "settle",
    ] {
        let same = prints_as(rt.alloc(), &t, text, text)?;
        assert!(rt; same, "at {text}");
    }
    Ok(())
}

#[test]
fn other_spellings_of_an_event(rt: HostRuntime) -> Result<(), Fail> {
    let t = nodes(rt.alloc())?;
    for (text, wanted) in [
        ("raw a 0AfF", "raw a 0aff"),
        ("host a 2001:0DB8:0:0:0:0:0:1 -", "host a 2001:db8::1 -"),
    ] {
        let same = prints_as(rt.alloc(), &t, text, wanted)?;
        assert!(rt; same, "at {text}");
    }
    Ok(())
}

#[test]
fn each_fault_has_its_place(rt: HostRuntime) -> Result<(), Fail> {
    let t = nodes(rt.alloc())?;
    for (text, place) in [
        ("", 0),
        (" next", 0),
        ("Next", 0),
        ("Settle", 0),
        ("settled", 0),
        ("settle ", 7),
        ("settle 1", 7),
        ("fault", 5),
        ("fault 8", 6),
        ("fault -1", 6),
        ("fault 07", 6),
        ("fault 1 a", 8),
        ("next ", 5),
        ("next 1", 5),
        ("advance", 7),
        ("advance ", 8),
        ("advance 1000000001", 8),
        ("advance 01", 8),
        ("advance +1", 8),
        ("advance 1 ", 10),
        ("deliver x", 8),
        ("deliver 65536", 8),
        ("deliver  1", 8),
        ("host n1 a -", 5),
        ("host a n1 -", 7),
        ("host a b -", 7),
        ("host a 1.2.3.4 -", 7),
        ("host a h1", 9),
        ("host a h1 f", 10),
        ("host a h1 -f", 10),
        ("host a h1 ff ff", 13),
        ("echo s1 a 1", 5),
        ("echo a r1 1", 7),
        ("echo a a 65536", 9),
        ("raw r1 -", 4),
        ("raw a ", 6),
        ("stranger 1.2.3.4 1.2.3.4:5 -", 9),
        ("stranger 1.2.3.4:5 1.2.3.4:65536 -", 19),
        ("stranger 1.2.3.4:5 1.2.3.4:6 0g", 29),
        ("copy 65536 1.2.3.4:5 1.2.3.4:6", 5),
        ("copy 0 a 1.2.3.4:6", 7),
        ("copy 0 1.2.3.4:5 a", 17),
        ("restart", 7),
        ("restart b", 8),
        ("restart n1 n2", 11),
        ("forget a a", 7),
        ("forget n1 n2", 10),
        ("forget n2 a", 10),
        ("forget n1", 9),
    ] {
        let found = fault_place(rt.alloc(), &t, text)?;
        assert!(rt; found == Some(place), "at {text}");
    }
    Ok(())
}

#[test]
fn bytes_up_to_the_limits(rt: HostRuntime) -> Result<(), Fail> {
    let t = nodes(rt.alloc())?;
    for (front, count, wanted) in [
        ("host a a ", 1_240, None),
        ("host a a ", 1_241, Some(9)),
        ("raw a ", 1_400, None),
        ("raw a ", 1_401, Some(6)),
        ("stranger 1.2.3.4:5 1.2.3.4:6 ", 1_400, None),
        ("stranger 1.2.3.4:5 1.2.3.4:6 ", 1_401, Some(29)),
    ] {
        let mut text = String::new(rt.alloc());
        text.push_str(front)?;
        for _ in 0..count {
            text.push_str("0a")?;
        }
        let found = fault_place(rt.alloc(), &t, text.as_str())?;
        assert!(rt; found == wanted, "{front}, {count} bytes");
    }
    Ok(())
}
