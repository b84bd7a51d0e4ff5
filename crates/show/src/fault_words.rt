//! What is wrong with a payload, in words.
ghost use Rattle.std.specs.Prelude.{◌≡◌, ◌+◌, ◌≤◌, ◌++◌, length};
ghost use Rattle.show.specs.Faults.{lead_fault_words, packet_fault_words, payload_fault_words};

use crate::line_texts::put_field;
use crate::page::{PAGE_LEN, Page};
use bubble::PayloadFault;
use indications::LeadFault;
use ipv6_packet::PacketFault;

/// Room for what is wrong with a payload, in bytes.
pub const FAULT_ROOM: usize = 100;

/// Room for the place behind what is wrong with a packet, in bytes.
const PLACE_ROOM: usize = 24;

/// Appends what is wrong in front of the packet.
fn put_lead_fault(fault: LeadFault, page: &mut Page)
    requires { length page.old + FAULT_ROOM ≤ PAGE_LEN }
    ensures text { page.new ≡ page.old ++ lead_fault_words fault }
    ensures short { length page.new ≤ length page.old + FAULT_ROOM }
{
    match fault {
        LeadFault::Cut { at } => put_field(b" cut at ", at, page),
        LeadFault::Order { at } => put_field(b" order at ", at, page),
        LeadFault::Kind { at, byte } => {
            page.push_text(b" kind ");
            page.push_digits(&[byte]);
            put_field(b" at ", at, page);
        }
    }
}

/// Appends what is wrong with a packet.
fn put_packet_fault(fault: PacketFault, page: &mut Page)
    requires { length page.old + FAULT_ROOM ≤ PAGE_LEN }
    ensures text { page.new ≡ page.old ++ packet_fault_words fault }
    ensures short { length page.new + PLACE_ROOM ≤ length page.old + FAULT_ROOM }
{
    match fault {
        PacketFault::Short { len } => put_field(b" short ", len, page),
        PacketFault::Version { nibble } => put_field(b" version ", usize::from(nibble), page),
        PacketFault::Length { said, there } => {
            put_field(b" length said ", said, page);
            put_field(b" there ", there, page);
        }
    }
}

/// Appends what is wrong with a payload, each word behind a space.
#[tactic(auto, unfolding(crate::specs::Faults::payload_fault_words))]
pub fn put_payload_fault(fault: PayloadFault, page: &mut Page)
    requires { length page.old + FAULT_ROOM ≤ PAGE_LEN }
    /// See `put_number`: `text`.
    ensures text { page.new ≡ page.old ++ payload_fault_words fault }
    /// See `put_number`: `text`.
    ensures short { length page.new ≤ length page.old + FAULT_ROOM }
{
    match fault {
        PayloadFault::Long { len } => put_field(b" long ", len, page),
        PayloadFault::Lead(fault) => put_lead_fault(fault, page),
        PayloadFault::Packet { at, fault } => {
            put_packet_fault(fault, page);
            put_field(b" at ", at, page);
        }
    }
}
