//! How what a node sends leaves it.
use td_base::Ep;

/// How the datagrams of a node leave it. Endpoints come first, so that those of all kinds lie at one place.
#[derive(Clone, Copy, Debug)]
pub enum Outlet {
    /// It sends none.
    Silent,
    /// From endpoints of its own, one for each side.
    Own { primary: Ep, secondary: Ep },
    /// From an endpoint inside the NAT of that number.
    Through { inside: Ep, nat: u16 },
}
