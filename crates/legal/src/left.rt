//! How much can be left of an event.

/// More than is left of any event after a record of it: of an advance its milliseconds, once for each moment that can be due;
/// of a `settle` far less. Our choice: of 64 clients and 4 relays with 256 peers each the former is about half.
pub const LEFT_MAX: u64 = 35_184_372_088_832;
