//! What an audit says.

/// What an audit says of a capture.
#[derive(Clone, Copy, Debug, PartialEq, Eq)]
pub enum Verdict {
    /// Each datagram from the server is licensed by an earlier one to it. `packets` counts all records, `to` and `from`
    /// those with a datagram to and from the server, one from the server to the server in both, and `skipped` all others.
    Clean {
        packets: u64,
        to: u64,
        from: u64,
        skipped: u64,
    },
    /// The datagram of this record is the first one from the server that no earlier one licenses. Records are numbered
    /// from 0, those that are skipped too.
    Unlicensed {
        place: u64,
    },
}
