//! What comes of a call of a node, besides its step.
use crate::outlet::Outlet;
use td_base::Ip6;

/// An IPv6 packet that a node sends: for the relay of that number, or for whoever has its destination.
#[derive(Clone, Copy, Debug)]
pub struct SixPacket<'a> {
    pub relay: Option<u16>,
    pub bytes: &'a [u8],
}

/// What comes of a call of a node, besides its step: how its datagrams leave, the packet that it sends besides them, the
/// length of what its host is handed, and the address that it got.
#[derive(Clone, Copy, Debug)]
pub struct Asked<'a> {
    pub outlet: Outlet,
    pub packet: Option<SixPacket<'a>>,
    pub handed: Option<usize>,
    pub address: Option<Ip6>,
}
