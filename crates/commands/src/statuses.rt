//! The numbers that the program ends with.
/// The command did all its work.
pub const DONE: u8 = 0;

/// The word of `show` is no payload.
pub const BAD_PAYLOAD: u8 = 1;

/// The words are no command.
pub const BAD_WORDS: u8 = 2;

/// The scenario is refused.
pub const BAD_SCENARIO: u8 = 3;

/// The source failed.
pub const UNREADABLE: u8 = 4;

/// The sink failed.
pub const UNWRITABLE: u8 = 5;

/// The link failed, when it was opened or later.
pub const NO_LINK: u8 = 6;

/// Memory ran out.
pub const NO_MEMORY: u8 = 7;

/// The next record would make more entries of the wire than it holds.
pub const WIRE_FULL: u8 = 8;

/// The turns were over before the client knew.
pub const UNDECIDED: u8 = 9;

/// A datagram from the server is licensed by no earlier one to it.
pub const UNLICENSED: u8 = 10;

/// The file is too long for an audit, or no capture.
pub const NO_CAPTURE: u8 = 11;

/// The scenario isn't played with this chain: for the chain, or of `nested` for a node or an event.
pub const NOT_NESTED: u8 = 12;
