//! Where a load is after a history.

/// The end of a load: the first of these that holds.
#[derive(Clone, Copy, Debug, PartialEq, Eq)]
pub enum End {
    /// It arrived, in the record of that number first.
    Arrived(u64),
    /// It waits at the node of that number.
    WaitsAt(u16),
    /// It is held by the node of that number.
    HeldAt(u16),
    /// The entry of that number carries it, and was never delivered.
    OnWire(u32),
    /// It was lost: the record of that number was the last that said something of it.
    Lost(u64),
}
