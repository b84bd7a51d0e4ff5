//! A client of a topology.
use crate::node_name::Name;
use crate::refresh_range::RefreshRange;
use td_base::Ep;

/// A client: its name, the numbers of its NAT and its server, its endpoint behind the NAT, how long it waits between
/// two refreshes, and whether it does as RFC 4380 says or as RFC 5991 does.
#[derive(Clone, Copy, Debug)]
pub struct ClientNode {
    pub name: Name,
    pub nat: u16,
    pub inside: Ep,
    pub server: u16,
    pub refresh: RefreshRange,
    /// Whether twelve flags of its addresses are random: RFC 5991, section 3.1.
    pub random: bool,
    /// Whether it begins with the cone phase: RFC 4380, section 5.2.1. RFC 5991, section 3.2, leaves that out.
    pub cone_try: bool,
}
