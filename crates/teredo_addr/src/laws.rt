//! Laws of addresses that are made.
ghost use Rattle.teredo_addr.specs.Laws.{TeredoTells, TeredoIsMade, LinkLocalTells, FlagsTell};
ghost use Rattle.teredo_addr.specs.Numbers.{AddressNumbers};

/// An address that is made tells what it was made of; each address with the prefix is made of what it tells. These are
/// laws over all addresses: which prefix it has, whether it is global, the server, the flags, the cone bit, the
/// endpoint.
pub fn teredo_tells()
    ensures { TeredoTells }
{}

/// Each address with the service's prefix is made of what it tells.
/// See `teredo_tells`.
pub fn teredo_is_made()
    ensures { TeredoIsMade }
{}

/// A link-local address tells the cone bit and the endpoint that it was made of.
/// See `teredo_tells`.
pub fn link_local_tells()
    ensures { LinkLocalTells }
{}

/// Flags that are made have the cone bit as asked, and none of the three that stay 0.
/// See `flags_of`.
pub fn flags_tell()
    ensures { FlagsTell }
{}

/// The numbers of Teredo addresses are the standard's.
pub fn address_numbers()
    ensures { AddressNumbers }
{}
