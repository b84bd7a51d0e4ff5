//! An option of a router's message.
ghost use Rattle.std.specs.Prelude.{◌≡◌, ◌+◌, ◌*◌, ◌<◌, ◌≤◌, length, take, drop, slice_index};
ghost use Rattle.icmp6.specs.Blocks.{option_of};

use crate::numbers::{MTU_OPTION, MTU_UNITS, OPTION_UNIT, PREFIX_INFORMATION, PREFIX_UNITS};
use td_base::{Ip6, Span, field32, ip6_at};

/// An option of a router's message.
#[derive(Clone, Copy, Debug, PartialEq, Eq)]
pub enum Opt {
    /// Prefix Information, its lifetimes in seconds: RFC 4861, section 4.6.2.
    Prefix {
        length: u8,
        flags: u8,
        valid: u32,
        preferred: u32,
        prefix: Ip6,
    },
    /// The link's MTU in bytes: RFC 4861, section 4.6.4.
    Mtu {
        mtu: u32,
    },
    /// Any other pair of type and length. The span is the whole option, counted from the first byte
    /// of the options.
    Other {
        kind: u8,
        span: Span,
    },
}

/// The option that these bytes are, of which the first stands at a place.
#[inline(always)]
pub fn option_of(place: usize, block: &[u8]) -> Opt
    requires some { 0 < length block.now }
    requires whole { length block.now ≡ OPTION_UNIT * slice_index block.now 1 }
    ensures { result ≡ option_of place block.now }
{
    match (block[0], block[1]) {
        (PREFIX_INFORMATION, PREFIX_UNITS) => Opt::Prefix {
            length: block[2],
            flags: block[3],
            valid: field32(block, 4),
            preferred: field32(block, 8),
            prefix: ip6_at(block, 16),
        },
        (MTU_OPTION, MTU_UNITS) => Opt::Mtu {
            mtu: field32(block, 4),
        },
        (kind, _) => Opt::Other {
            kind,
            span: Span {
                at: place,
                len: block.len(),
            },
        },
    }
}
