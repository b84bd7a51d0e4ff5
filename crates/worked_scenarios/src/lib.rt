//! Worked scenarios: reports that are computed from the definitions of a legal history alone, and compared with texts
//! that were written before any code. No code stands here: each is a theorem in proofs/, where both sides are the same
//! once they are computed.
//!
//! | file of proofs/ | what is computed |
//! |---|---|
//! | `QualifyReports`, `OwnStreams` | clients behind each kind of NAT find their address, lose it, keep it |
//! | `ConeReports`, `MeetingReports`, `TryReports`, `QueueTotals` | two clients meet, or don't |
//! | `FaultReports`, `SettleReports` | a send that fails; all that is on the wire is delivered |
//! | `ChainReports` | a client behind a NAT that is behind another one |
//! | `RelayReports` | a native host and a client, through a relay |
//! | `HeldReports` | a client holds packets of a native host, and hands over those from where the test is answered |
//! | `TestBytes` | the bytes of a test |
//! | `Late` | single steps of a client at late moments, and the order of its random words |
//!
//! What unfolds where a scenario is played is named once, in `Playing`: a theorem says `unfolding playing`.
#![tactic(auto)]
