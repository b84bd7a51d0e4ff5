//! A scenario that sends more than the wire holds.
use crate::runs::{LAB, NAME, ended, ending, ends_so};
use crate::vectors::ROOM;
use player::{PlayFault, TotalsWriter, play_flat};
use scenario::read;
use std::test::Fail;
use td_outside::MemSink;

/// A client that qualifies and then refreshes for 23 days.
pub const LONG: &str = r#"
seed = 1
events = ["advance 0", "next", "next", "advance 1000000000", "advance 1000000000"]

[[server]]
name = "s1"
primary = "192.0.2.1"
secondary = "192.0.2.2"

[[nat]]
name = "n1"
kind = "cone"
external = "198.51.100.1"
idle = 60000

[[client]]
name = "a"
nat = "n1"
inside = "10.0.0.2:4000"
server = "s1"
refresh = [30000, 30000]
"#;

const WIRE_FULL: &[u8] = b"wire full\n";

#[test]
fn a_report_breaks_off_where_the_wire_is_full(rt: HostRuntime) -> Result<(), Fail> {
    let (status, sink) = ended(rt.alloc(), &ending(&LAB, LONG, 8, ""))?;
    assert!(rt; status == 8);
    assert!(rt; sink.as_slice().ends_with(WIRE_FULL));
    Ok(())
}

#[test]
fn words_give_way_to_a_full_wire(rt: HostRuntime) -> Result<(), Fail> {
    let words = ["reach", NAME, "-"];
    assert!(rt; ends_so(rt.alloc(), &ending(&words, LONG, 8, "wire full\n"))?);
    Ok(())
}

#[test]
fn totals_give_way_to_a_full_wire(rt: HostRuntime) -> Result<(), Fail> {
    let Ok(s) = read(rt.alloc(), LONG.as_bytes()) else {
        return Err(Fail::from("no scenario"));
    };
    let mut sink = MemSink::new(rt.alloc(), ROOM, &[])?;
    let mut totals = TotalsWriter::new();
    let played = play_flat(
        Vec::new(rt.alloc()),
        s.seed,
        &s.topology,
        &s.events,
        &mut totals,
        &mut sink,
    );
    assert!(rt; played == Err(PlayFault::WireFull));
    assert!(rt; sink.as_slice() == WIRE_FULL);
    Ok(())
}
