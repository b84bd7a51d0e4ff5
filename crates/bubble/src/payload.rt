//! The payload.
use indications::Lead;
use ipv6_packet::Packet;

/// A payload: what stands in front, and the packet.
#[derive(Clone, Copy, Debug)]
pub struct Payload<'a> {
    pub lead: Lead,
    pub packet: Packet<'a>,
}
