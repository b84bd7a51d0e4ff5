//! The records of a capture before the one at hand.
use td_pcap::Head;

/// The records of a capture before the one at hand: what they stand in, and how many they are.
#[derive(Clone, Copy, Debug)]
pub(crate) struct Earlier<'a> {
    pub head: Head,
    pub bytes: &'a [u8],
    pub count: u64,
}
