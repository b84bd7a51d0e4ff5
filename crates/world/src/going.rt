//! What goes on between two records of an event.
use td_base::Millis;

/// An event that has further records.
#[derive(Clone, Copy, Debug)]
pub enum Going {
    /// An advance: when it began, and how far it goes, in milliseconds.
    Advance { began: Millis, ms: u64 },
    /// Deliveries of what was never delivered, one after the other. They take no time.
    Settle,
}
