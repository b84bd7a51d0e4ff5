//! How long a test is.
/// How many bytes a test's message has: those of an echo request whose data is a nonce.
pub const TEST_MESSAGE_LEN: usize = 16;

/// How many bytes a test has.
pub const TEST_LEN: usize = 56;
