//! An address, and what keeps it.
ghost use Rattle.std.specs.Prelude.{◌≡◌, ◌+◌, ◌<◌, ◌==◌, None, Some, option_to_list};
ghost use Rattle.std.specs.List.{list_any};
ghost use Rattle.td_base.specs.declared.millis.TheConstants.{CLOCK_END_MS};
ghost use Rattle.qualify.specs.declared.limits.TheConstants.{DUE_END_MS};

use td_base::{Ip6, Millis};

/// A qualified client's address, and its refreshes.
#[derive(Clone, Copy, Debug)]
pub struct Upkeep {
    pub address: Ip6,
    /// The time until the next refresh, in milliseconds.
    pub interval: u32,
    /// When the next refresh is due.
    pub due: Millis,
    /// That of the latest refresh, until an advertisement used it.
    pub nonce: Option<u64>,
    ghost soon: { due.0 < DUE_END_MS },
}

impl Upkeep {
    /// An address that is new now, or told anew: no nonce is open.
    pub fn of(address: Ip6, interval: u32, now: Millis) -> Upkeep
        requires bound { now.0 < CLOCK_END_MS }
        ensures { (result.address ≡ address) × (result.interval ≡ interval) × (result.due.0 ≡ now.0 + interval) × (result.nonce ≡ None) }
    {
        Upkeep {
            address,
            interval,
            due: Millis(now.0 + u64::from(interval)),
            nonce: None,
        }
    }

    /// Whether this is the nonce of the latest refresh, and no advertisement used it.
    pub fn is_open(&self, nonce: u64) -> bool
        ensures { result ≡ list_any (λ m. m == nonce) (option_to_list self.now.nonce) }
    {
        match self.nonce {
            Some(latest) => latest == nonce,
            None => false,
        }
    }

    /// After a refresh with this nonce, and with this interval to the next.
    pub fn refreshed(self, now: Millis, nonce: u64, interval: u32) -> Upkeep
        requires bound { now.0 < CLOCK_END_MS }
        ensures { (result.address ≡ self.address) × (result.interval ≡ interval) × (result.due.0 ≡ now.0 + interval) × (result.nonce ≡ Some nonce) }
    {
        Upkeep {
            address: self.address,
            interval,
            due: Millis(now.0 + u64::from(interval)),
            nonce: Some(nonce),
        }
    }

    /// After word of the server: the next refresh is an interval from now.
    pub fn renewed(self, now: Millis) -> Upkeep
        requires bound { now.0 < CLOCK_END_MS }
        ensures { (result.address ≡ self.address) × (result.interval ≡ self.interval) × (result.due.0 ≡ now.0 + self.interval) × (result.nonce ≡ self.nonce) }
    {
        Upkeep {
            address: self.address,
            interval: self.interval,
            due: Millis(now.0 + u64::from(self.interval)),
            nonce: self.nonce,
        }
    }
}
