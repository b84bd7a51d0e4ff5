//! Laws of payloads as lists of bytes.
ghost use Rattle.bubble.specs.Laws.{SpelledPayloadIsRead, PayloadIsSpelled, PayloadReadsBack, PayloadIsBytes};
ghost use Rattle.bubble.specs.Laws.{PacketIsPayload, PacketGoesOn, BubbleReadsBack, MessageIsCarried};
ghost use Rattle.bubble.specs.Numbers.{BubbleNumbers};

/// A spelling of a payload is read as it.
/// See `payload_reads_back`.
pub fn spelled_payload_is_read()
    ensures { SpelledPayloadIsRead }
{}

/// Bytes that are a payload are a spelling of it.
/// See `payload_reads_back`.
pub fn payload_is_spelled()
    ensures { PayloadIsSpelled }
{}

/// As lists of bytes: what is sent reads back; bytes that are a payload are a spelling of it. These are laws over all
/// payloads.
/// Needs: what may be sent, which is what `write` needs.
pub fn payload_reads_back()
    ensures { PayloadReadsBack }
{}

/// What is sent in one datagram is so many bytes.
/// See `payload_reads_back`.
pub fn payload_is_bytes()
    ensures { PayloadIsBytes }
{}

/// A packet that isn't too long is a payload with nothing in front; one that goes on is read as it was; a bubble is
/// read as one.
/// Needs: bytes; for a packet that goes on, at most 1,280 of them.
pub fn packet_is_payload()
    ensures { PacketIsPayload }
{}

/// A packet that goes on, with an origin in front or without one, is read as it was.
/// See `packet_is_payload`.
pub fn packet_goes_on()
    ensures { PacketGoesOn }
{}

/// A bubble that is made here reads back, and is a bubble.
/// See `packet_is_payload`.
pub fn bubble_reads_back()
    ensures { BubbleReadsBack }
{}

/// A packet that was made of a message, as an echo or an advertisement, carries that message.
/// Needs: fields that fit, and fewer than 65,536 bytes; of a router's message, hop limit 255, whole options and, of an
/// advertisement, a link-local source.
pub fn message_is_carried()
    ensures { MessageIsCarried }
{}

/// The numbers of a bubble are the standard's.
pub fn bubble_numbers()
    ensures { BubbleNumbers }
{}
