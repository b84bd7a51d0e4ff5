//! What a fate means for what is kept of a peer.
ghost use Rattle.std.specs.Prelude.{◌≡◌};
ghost use Rattle.load_keeper.specs.Effects.{client_effect, relay_effect};

use teredo_node::Fate;

/// What a fate means for what waits for a peer, and for what is held of it.
#[derive(Clone, Copy, Debug, PartialEq, Eq)]
pub enum Effect {
    /// Nothing.
    Nothing,
    /// The peer is listed from then on.
    Touches,
    /// So it is, and the record's packet waits for it.
    Queues,
    /// So it is, and nothing waits for it any more, and nothing is held of it.
    Hears,
    /// So it is, and the record's packet is held of it.
    Tests,
    /// The record's packet is held of it, and no more.
    Holds,
    /// Nothing waits for it any more.
    GivesUp,
}

/// What a client's fate means: RFC 4380, section 5.2.
pub fn client_effect(fate: Fate) -> Effect
    ensures { result ≡ client_effect fate }
{
    match fate {
        Fate::Sent => Effect::Touches,
        Fate::Queued => Effect::Queues,
        Fate::Indirect => Effect::Touches,
        Fate::Rule1 => Effect::Hears,
        Fate::Rule1Bubble => Effect::Hears,
        Fate::Rule2 => Effect::Hears,
        Fate::Rule3 => Effect::Hears,
        Fate::Rule3Bubble => Effect::Hears,
        Fate::HeldTest => Effect::Tests,
        Fate::SuspiciousTest => Effect::Touches,
        Fate::Held => Effect::Holds,
        Fate::Bubbles => Effect::Touches,
        Fate::Test => Effect::Touches,
        Fate::GiveUp => Effect::GivesUp,
        _ => Effect::Nothing,
    }
}

/// What a relay's fate means: RFC 4380, section 5.4.
pub fn relay_effect(fate: Fate) -> Effect
    ensures { result ≡ relay_effect fate }
{
    match fate {
        Fate::Sent => Effect::Touches,
        Fate::SentCone => Effect::Touches,
        Fate::Queued => Effect::Queues,
        Fate::FromClient => Effect::Hears,
        Fate::FromClientBubble => Effect::Hears,
        Fate::Unserved => Effect::Hears,
        Fate::Bubbles => Effect::Touches,
        Fate::GiveUp => Effect::GivesUp,
        _ => Effect::Nothing,
    }
}
