//! What a record does with a load.
use history::Mark;

/// What a record does with a load.
#[derive(Clone, Copy, Debug)]
pub enum Way {
    /// A send or entry carries it.
    Goes(Mark),
    /// Its packet waits at a client or a relay.
    Waits,
    /// A client holds its packet.
    Held,
    /// It arrives at a client's host, or at a native host.
    Arrives,
    /// Nothing carries it on.
    Ends,
}
