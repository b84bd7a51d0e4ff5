//! Between a client and a host of the IPv6 Internet: what the two tables of words ask, and their answers.
ghost use Rattle.std.specs.Prelude.{◌≡◌};
ghost use Rattle.theory_reaching.specs.ToNative.{to_native_row};
ghost use Rattle.theory_reaching.specs.FromNative.{from_native_row};

use crate::word::Reach;

/// What the lines ask of a client, a native host and its relay.
#[derive(Clone, Copy, Debug)]
pub struct Relayed {
    /// The client is qualified.
    pub on: bool,
    /// It is settled along its way.
    pub settled: bool,
    /// It speaks to the relay's endpoint.
    pub speaks: bool,
    /// It speaks to its own server's primary endpoint.
    pub speaks_server: bool,
    /// The native is fresh at the client.
    pub fresh: bool,
    /// The client trusts the native at the relay's endpoint.
    pub trusted: bool,
    /// The relay lists the client.
    pub listed: bool,
    /// The relay trusts the client.
    pub trusts: bool,
    /// What comes from the relay to the client's endpoint is let in to the client.
    pub let_in: bool,
    /// The relay must ask for the client: it sends it nothing before it heard it.
    pub asks: bool,
    /// The client is barred for the native.
    pub barred: bool,
    /// The relay is barred for the client, or the client for the relay's own address.
    pub bubble_barred: bool,
    /// The client has room for the native, and the relay for the client.
    pub room: bool,
    /// The client has room for the native and the relay's own address.
    pub room_for_both: bool,
    /// The client holds as many packets of the native as it may.
    pub holds_most: bool,
    /// Packets wait at the relay for the client.
    pub relay_keeps: bool,
}

impl Relayed {
    /// The word on packets to the native: that of the first line whose condition holds.
    pub fn word_to_native(self) -> Reach
        /// See `TwoClients::word`.
        ensures { result ≡ to_native_row self }
    {
        if !self.on {
            return Reach::Off;
        }
        if self.fresh && (self.trusted && !self.speaks) {
            return Reach::Moved;
        }
        if !self.fresh && !self.speaks_server {
            return Reach::Moved;
        }
        if !self.settled {
            return Reach::Lost;
        }
        if self.fresh && (self.trusted && !self.listed) {
            return Reach::Stale;
        }
        if self.fresh && (self.trusted && !self.relay_keeps) {
            return Reach::Within2;
        }
        if self.fresh {
            return Reach::Known;
        }
        if self.trusts && !self.let_in {
            return Reach::Stale;
        }
        if self.barred || (self.asks && self.bubble_barred) {
            return Reach::Barred;
        }
        if !self.room || (self.asks && !self.room_for_both) {
            return Reach::Full;
        }
        if self.asks {
            return Reach::Within9;
        }
        Reach::Within6
    }

    /// The word on packets from the native.
    pub fn word_from_native(self) -> Reach
        /// See `TwoClients::word`.
        ensures { result ≡ from_native_row self }
    {
        if !self.on {
            return Reach::Away;
        }
        if !self.settled {
            return Reach::Lost;
        }
        if self.trusts && !self.let_in {
            return Reach::Stale;
        }
        if self.trusts && self.trusted {
            return Reach::Within2;
        }
        if self.fresh && !self.trusted {
            return Reach::Stale;
        }
        if (!self.trusted && self.barred) || (self.asks && self.bubble_barred) {
            return Reach::Barred;
        }
        if !self.room
            || ((!self.trusted && self.holds_most) || (self.asks && !self.room_for_both))
        {
            return Reach::Full;
        }
        if self.trusted && self.asks {
            return Reach::Within5;
        }
        if self.trusted {
            return Reach::Within2;
        }
        if self.asks {
            return Reach::Within9;
        }
        Reach::Within6
    }
}
