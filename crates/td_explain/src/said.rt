//! What is said of a record.
use crate::answered::Answered;
use crate::question::Question;
use td_ipv4::Ip4Fault;

/// What is said of a record: why it holds no datagram, or what the datagram was to the server. One that is neither to it
/// nor from it is neither asked nor answered, and one from the server to itself is both.
#[derive(Clone, Copy, Debug, PartialEq, Eq)]
pub enum Said {
    Skipped(Ip4Fault),
    Held {
        asked: Option<Question>,
        answered: Option<Answered>,
    },
}
