//! Where entries went lately.
ghost use Rattle.std.specs.Prelude.{◌<◌};
ghost use Rattle.world.specs.declared.guesses.TheConstants.{GUESSES};

use crate::route::Route;
use td_base::{Ip4, Ip6};

/// How many guesses are kept of each kind.
const GUESSES: usize = 256;

/// By some bits of an address, the number of the node to which an entry for it went last. So a search needn't begin with the
/// first node. No guess is trusted: whatever they are, entries go where they go.
#[derive(Clone, Copy, Debug)]
pub struct Guesses {
    outside: [u16; GUESSES],
    six: [u16; GUESSES],
}

/// The place of the guess for the address of a NAT.
fn place_of(ip: Ip4) -> usize
    ensures { result < GUESSES }
{
    usize::from(ip.0[2].wrapping_add(ip.0[3]))
}

/// The place of the guess for the address of a native host.
fn place_of_six(ip: Ip6) -> usize
    ensures { result < GUESSES }
{
    usize::from(ip.0[15])
}

impl Guesses {
    /// Nothing was sent: each guess is the first node.
    pub fn new() -> Guesses {
        Guesses {
            outside: [0; GUESSES],
            six: [0; GUESSES],
        }
    }

    /// Who may have got the last datagram to an address.
    pub fn outside(&self, ip: Ip4) -> u16 {
        self.outside[place_of(ip)]
    }

    /// Remembers who got a datagram to an address, if anybody did.
    pub fn note_outside(&mut self, ip: Ip4, route: Route) {
        if let Route::Reaches { node } = route {
            self.outside[place_of(ip)] = node;
        }
    }

    /// Who may have got the last packet to an address.
    pub fn six(&self, ip: Ip6) -> u16 {
        self.six[place_of_six(ip)]
    }

    /// Remembers who got a packet to an address, if anybody did.
    pub fn note_six(&mut self, ip: Ip6, route: Route) {
        if let Route::Reaches { node } = route {
            self.six[place_of_six(ip)] = node;
        }
    }
}
