//! The numbers of a test.
/// The identifier of a test's echo request (own).
pub const TEST_ID: u16 = 0;

/// The sequence number of a test's echo request (own).
pub const TEST_SEQ: u16 = 0;
