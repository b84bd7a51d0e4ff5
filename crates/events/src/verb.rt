//! The words of events.
ghost use Rattle.std.specs.Prelude.{◌≡◌};
ghost use Rattle.events.specs.Verbs.{verb_word, verb_of};

/// An event's word.
#[derive(Clone, Copy, Debug, PartialEq, Eq)]
pub enum Verb {
    Advance,
    Deliver,
    Next,
    Host,
    Echo,
    Raw,
    Stranger,
    Copy,
    Restart,
    Forget,
    Fault,
    Settle,
}

impl Verb {
    /// The word as it stands in a text.
    pub fn name(self) -> &'static str
        /// An event's word is the one that stands in a text.
        ensures { result.now ≡ verb_word self }
    {
        match self {
            Verb::Advance => "advance",
            Verb::Deliver => "deliver",
            Verb::Next => "next",
            Verb::Host => "host",
            Verb::Echo => "echo",
            Verb::Raw => "raw",
            Verb::Stranger => "stranger",
            Verb::Copy => "copy",
            Verb::Restart => "restart",
            Verb::Forget => "forget",
            Verb::Fault => "fault",
            Verb::Settle => "settle",
        }
    }
}

/// The event's word that a text is.
#[tactic(auto, unfolding(crate::specs::Verbs::verb_of))]
pub(crate) fn verb_named(word: &[u8]) -> Option<Verb>
    ensures { result ≡ verb_of word.now }
{
    match word {
        b"advance" => Some(Verb::Advance),
        b"deliver" => Some(Verb::Deliver),
        b"next" => Some(Verb::Next),
        b"host" => Some(Verb::Host),
        b"echo" => Some(Verb::Echo),
        b"raw" => Some(Verb::Raw),
        b"stranger" => Some(Verb::Stranger),
        b"copy" => Some(Verb::Copy),
        b"restart" => Some(Verb::Restart),
        b"forget" => Some(Verb::Forget),
        b"fault" => Some(Verb::Fault),
        b"settle" => Some(Verb::Settle),
        _ => None,
    }
}
