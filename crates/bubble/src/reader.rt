//! Payloads out of bytes.
ghost use Rattle.std.specs.Prelude.{◌≡◌, ◌+◌, ◌≤◌, length, true, false, IfOk, IfErr, IfSome, Ok};
ghost use Rattle.td_base.specs.Results.{Gives};
ghost use Rattle.ipv6_packet.specs.declared.header.TheConstants.{HEADER};
ghost use Rattle.indications.specs.Blocks.{AreSpansBefore};
ghost use Rattle.bubble.specs.Payloads.{Value, payload_view, PayloadBytes, IsFirstPayloadFault, payload_at};
ghost use Rattle.bubble.specs.Reads.{is_payload, value_in};

use crate::fault::PayloadFault;
use crate::payload::Payload;
use indications::{auth_lead, bare_lead, places_of};
use ipv6_packet::{check, packet_in};
use td_base::DATAGRAM_MAX;

/// The payload that the bytes spell, all of the bytes.
#[inline(always)]
pub fn read(bytes: &[u8]) -> Result<Payload<'_>, PayloadFault>
    /// What is read is the payload that the list of bytes spells, of at most 1,400 bytes.
    /// Leaves open: who sent it, and who would take it.
    ensures found { IfOk result (λ p. PayloadBytes (payload_view p) bytes.now) }
    /// A list that spells a payload is read as it.
    ensures only { (v : Value) → PayloadBytes v bytes.now → Gives payload_view result (Ok v) }
    /// A list that spells no payload is refused by its first fault: too long, that of the indications, or that of the
    /// packet with the place where it begins.
    ensures fault { IfErr result (λ e. IsFirstPayloadFault e bytes.now) }
    // The packet is all that follows the indications.
    /// See `found`.
    ensures inside { IfOk result (λ p. p.lead.at + HEADER + length p.packet.body.now ≡ length bytes.now) }
    /// See `found`.
    ensures spans { IfOk result (λ p. IfSome p.lead.auth (AreSpansBefore p.lead.at)) }
    /// A definition that looks at bytes sees the payload that `read` gives, or that there is none.
    ensures seen { IfOk result (λ p. (is_payload bytes.now ≡ true) × (value_in bytes.now ≡ payload_view p)) }
    /// See `seen`.
    ensures unseen { IfErr result (λ e. is_payload bytes.now ≡ false) }
    // The same as one function of the bytes.
    /// See `found`.
    ensures exact { Gives payload_view result (payload_at bytes.now) }
{
    if bytes.len() > DATAGRAM_MAX {
        return Err(PayloadFault::Long { len: bytes.len() });
    }
    let places = places_of(bytes)?;
    let at = places.at;
    let rest = &bytes[at..];
    if let Err(fault) = check(rest) {
        return Err(PayloadFault::Packet { at, fault });
    }
    // A payload is built at its return, and the steps stand in the function that is called: one that two ways join, or
    // that a further function answered, is moved once more.
    if places.auth == 0 {
        return Ok(Payload {
            lead: bare_lead(bytes, places),
            packet: packet_in(rest),
        });
    }
    Ok(Payload {
        lead: auth_lead(bytes, places),
        packet: packet_in(rest),
    })
}
