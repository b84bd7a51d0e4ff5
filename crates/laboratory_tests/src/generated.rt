//! The events of a seed, beside those that another program made.
ghost use Rattle.std.specs.Prelude.{◌≤◌};
ghost use Rattle.events.specs.declared.event.TheConstants.{EVENTS_MAX};

use events::print_event;
use generator::generate;
use std::test::*;

/// Numbers of events of seed 7, and their texts.
const TEXTS: [(usize, &str); 15] = [
    (0, "host c5 c1 1740afd9"),
    (1, "next"),
    (2, "advance 350"),
    (3, "advance 2422"),
    (4, "deliver 0"),
    (5, "advance 3761"),
    (6, "next"),
    (7, "deliver 6"),
    (13, "host h0 c6 054f465e"),
    (24, "host c4 h1 5a377cbd"),
    (38, "restart n3"),
    (39, "next"),
    (40, "copy 25 203.0.113.5:9 198.51.100.4:1024"),
    (75, "forget n3 c3"),
    (81, "restart c2"),
];

#[test]
fn events_of_a_seed(rt: HostRuntime) -> Result<(), Fail> {
    let made = generate(rt.alloc(), 7, 400)?;
    let events = made.events.as_slice();
    assert!(rt; events.len() == 400);
    for (index, text) in TEXTS {
        let Some(event) = events.get(index) else {
            continue;
        };
        let printed = print_event(rt.alloc(), &made.topology, event)?;
        assert!(rt; printed.as_slice() == text.as_bytes(), "event {index}");
    }
    Ok(())
}
