//! An entry of the wire, lent.
ghost use Rattle.std.specs.Prelude.{◌≡◌};
ghost use Rattle.history.specs.Full.{bytes_of, sent};
ghost use Rattle.history.specs.Records.{mark_of};
ghost use Rattle.world.specs.WireEntry.{item_lent};

use history::Mark;
use td_base::Ep;

/// An entry of the wire, lent.
#[derive(Clone, Copy, Debug)]
pub enum WireEntry<'a> {
    /// A datagram.
    Udp { src: Ep, dst: Ep, bytes: &'a [u8] },
    /// An IPv6 packet, for the relay of that number, or for whoever has its destination.
    Six { relay: Option<u16>, bytes: &'a [u8] },
}

impl<'a> WireEntry<'a> {
    /// Its bytes.
    pub fn bytes(self) -> &'a [u8]
        /// See `World::entries`: `count`.
        ensures { result.now ≡ bytes_of (item_lent self.entry) }
    {
        match self {
            WireEntry::Udp { bytes, .. } => bytes,
            WireEntry::Six { bytes, .. } => bytes,
        }
    }

    /// Its mark, where this is its number.
    pub(crate) fn mark(self, number: u32) -> Mark
        ensures { result ≡ mark_of number (sent (item_lent self.entry)) }
    {
        match self {
            WireEntry::Udp { src, dst, bytes } => Mark::Udp {
                number,
                src,
                dst,
                len: bytes.len(),
            },
            WireEntry::Six { relay, bytes } => Mark::Six {
                number,
                relay,
                len: bytes.len(),
            },
        }
    }
}
