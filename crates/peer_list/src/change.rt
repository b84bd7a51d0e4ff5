//! A change of what is known of a listed peer.
use td_base::Ep;

/// What a call at a moment changes of its peer. No call hands one out: contracts speak of it.
#[derive(Clone, Copy, Debug)]
pub enum Change {
    /// It stays listed.
    Touch,
    /// It is trusted at an endpoint from then on: what was tried is over, a test too.
    Trust(Ep),
    /// A direct reception came from it: what was tried is over, and nothing waits or is held any more.
    Hear,
    /// Both: such a reception came from an endpoint, where it is trusted from then on.
    TrustAndHear(Ep),
    /// It was tried, where there is one with a test and its nonce.
    Try(Option<u64>),
    /// Nothing waits for it any more.
    GiveUp,
}
