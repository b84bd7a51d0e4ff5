//! Texts that ask for chains of NATs.

use scenario::read;
use std::test::Fail;
use td_chain::{ChainFault, Chains};

/// Five NATs. Behind the fifth is a client with the external address of the first.
const FIVE: &str = r#"
seed = 1
events = []
[[server]]
name = "s1"
primary = "192.0.2.1"
secondary = "192.0.2.2"
[[nat]]
name = "n1"
kind = "cone"
external = "198.51.100.1"
idle = 60000
[[nat]]
name = "n2"
kind = "restricted"
external = "198.51.100.2"
idle = 60000
[[nat]]
name = "n3"
kind = "port"
external = "198.51.100.3"
idle = 60000
[[nat]]
name = "n4"
kind = "symmetric"
external = "198.51.100.4"
idle = 60000
[[nat]]
name = "n5"
kind = "cone"
external = "198.51.100.5"
idle = 60000
[[client]]
name = "a"
nat = "n5"
inside = "198.51.100.1:4000"
server = "s1"
refresh = [30000, 30000]
"#;

/// Texts that ask for a chain of these: none, a pair, two chains, three NATs in a row, two behind one.
const CHAINS: [&str; 6] = [
    "-",
    "n1:n2",
    "n1:n2,n3:n4",
    "n1:n2,n2:n3",
    "n2:n3,n1:n2",
    "n1:n3,n2:n3",
];

/// Texts that ask for none, each for a reason of its own.
const NO_CHAINS: [&str; 15] = [
    // no list of pairs
    "",
    "--",
    "n1",
    "n1:",
    ":n2",
    "n1:n2:n3",
    "n1:n2,",
    ",n1:n2",
    "n1:n2 ,n2:n3",
    // not of NATs
    "n1:n6",
    "a:n5",
    // the outer one first
    "n2:n1",
    // inner twice
    "n1:n2,n1:n3",
    // four in a row
    "n1:n2,n2:n3,n3:n4",
    // beside a client with the same address
    "n1:n5",
];

#[test]
fn chains_that_may_be_asked_for(rt: HostRuntime) -> Result<(), Fail> {
    let Ok(s) = read(rt.alloc(), FIVE.as_bytes()) else {
        return Err(Fail::from("no scenario"));
    };
    for text in CHAINS {
        assert!(rt; Chains::new(rt.alloc(), &s.topology, text.as_bytes()).is_ok());
    }
    for text in NO_CHAINS {
        assert!(rt;
            Chains::new(rt.alloc(), &s.topology, text.as_bytes()).err() == Some(ChainFault::Chain)
        );
    }
    Ok(())
}
