//! What the program meets outside: sources, sinks, links of two addresses, and the clock.
//!
//! Standards: none for files and time. UDP port 3544 is RFC 4380, section 2.7. Our choices: `docs/DECISIONS.md`,
//! "The outside".
//!
//! # What the layer above may rely on
//!
//! - Each trait counts its faults. A call answers `Failed` only where its count rose in that call, and a call that
//!   answers Ok leaves the count as it was.
//! - Where a source, a sink or a link tells its content, each call says what became of it. Where it tells what it was
//!   asked, each call says that too: names, pieces, addresses, how many bytes were read.
//! - The forms in memory tell their content, fail at exactly the calls that their lists name, and take memory in `new`
//!   alone.
//! - A link that was opened as a client's has one socket: its endpoint is the answer, sends of either side leave from
//!   it, and what arrives has the side Primary.
//! - A `UdpPair` that isn't open fails, and a `FileSource` that isn't gives nothing. A call of `UdpPair::recv` without
//!   a datagram lasts 20 ms by the runtime's clock.
//!
//! # What it does not know
//!
//! Teredo: datagrams are bytes here. What a real file, terminal or socket held: the adapters tell nothing of it.
//!
//! # Parts
//!
//! | module | holds | stated in |
//! |---|---|---|
//! | | what a call does to what is told | `specs/Moves.antt`, with laws in `specs/MoveLaws.antt` |
//! | `fails` | `Failed`, and which calls of a form in memory fail | `specs/Causes.antt`, `specs/Calls.antt` |
//! | `source`, `sink` | `Source`, `Sink` | `specs/Source.antt`, `specs/Sink.antt` |
//! | `link` | `Link`, the `Place` where it is open, and its `Arrival` | `specs/Link.antt` |
//! | `clock` | `Clock` | `specs/Clock.antt` |
//! | `mem_source`, `mem_sink` | `MemSource`, `MemSink` | `specs/Streams.antt` |
//! | `mem_link`, `mem_arrival`, `mem_attempt` | `MemLink`, what it receives and what it keeps | `specs/MemLink.antt` |
//! | `test_clock` | `TestClock` | `specs/TestClock.antt` |
//! | `file_source`, `udp_pair` | files and sockets | `specs/FileSource.antt`, `specs/UdpPair.antt` |
//! | `std_sink`, `system_clock` | output and time of the real thing | |
//! | `sockets` | the sockets of a `UdpPair` | `specs/Sockets.antt` |
//! | `sides`, `one_socket` | two sockets, as a server has them; one, as a client has it | |
//! | `edges` | what a socket is asked and answers, in the terms of a link | `specs/Edges.antt` |
//! | `again` | calls that a signal broke off | |
//!
//! # Beside the clauses
//!
//! What was asked of a source, a sink or a link is told by `Recorder` of `outside_tests`, over any other, as long as
//! there is memory for it: so the clauses can be met. The forms in memory and the adapters don't tell it. A body that
//! is proved over every source, sink and link has to meet them all the same.
//!
//! Tested, not proved: that `FileSource` reads the file, that `StdSink` writes to standard output, that `UdpPair` and
//! `SystemClock` are sockets and time, and that a turn of `UdpPair` without a datagram lasts 20 ms whatever ends its
//! waits. `.ci/serve` tries the sockets with the built program.
#![tactic(auto)]

mod again;
mod clock;
mod edges;
mod fails;
mod file_source;
mod link;
mod mem_arrival;
mod mem_attempt;
mod mem_link;
mod mem_sink;
mod mem_source;
mod one_socket;
mod sides;
mod sink;
mod sockets;
mod source;
mod std_sink;
mod system_clock;
mod test_clock;
mod udp_pair;

pub use clock::Clock;
pub use fails::Failed;
pub use file_source::FileSource;
pub use link::{Addresses, Arrival, Link, Place};
pub use mem_arrival::MemArrival;
pub use mem_attempt::MemAttempt;
pub use mem_link::MemLink;
pub use mem_sink::MemSink;
pub use mem_source::MemSource;
pub use sink::Sink;
pub use source::Source;
pub use std_sink::StdSink;
pub use system_clock::SystemClock;
pub use test_clock::TestClock;
pub use udp_pair::UdpPair;
