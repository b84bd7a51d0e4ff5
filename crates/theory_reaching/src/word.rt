//! The word on two hosts.
ghost use Rattle.std.specs.Prelude.{◌≡◌};
ghost use Rattle.theory_reaching.specs.Words.{reach_class, reach_word};

/// What becomes of the next packet from one host to another.
#[derive(Clone, Copy, Debug, PartialEq, Eq)]
pub enum Reach {
    /// The sender isn't qualified.
    Off,
    /// The receiver isn't.
    Away,
    /// Both clients have one address.
    OneAddress,
    /// The sender doesn't speak to where the packet goes first: it leaves from elsewhere than the sender's address says, or
    /// is refused by a NAT.
    Moved,
    /// A client isn't settled along its way.
    Lost,
    /// Both are behind one outermost NAT.
    OneNat,
    /// Somebody lists as many others as it may.
    Full,
    /// What is known of the receiver isn't so any more.
    Stale,
    /// Somebody may not try again yet.
    Barred,
    /// They know each other, and not well enough for a promise.
    Known,
    /// It comes with the next delivery.
    Within1,
    /// It comes within two deliveries, and so on.
    Within2,
    Within4,
    Within5,
    Within6,
    Within7,
    Within8,
    Within9,
    Within10,
    Within11,
    Within12,
    Within13,
}

/// What a word says of the packet.
#[derive(Clone, Copy, Debug, PartialEq, Eq)]
pub enum ReachClass {
    /// That it comes.
    Within,
    /// That it doesn't.
    Shut,
    /// Nothing.
    Unsaid,
}

impl Reach {
    /// The word as it is printed.
    pub fn word(self) -> &'static str
        /// A word's text is that of the table of words; so is whether it says that the packet comes, that it doesn't,
        /// or nothing.
        ensures { result.now ≡ reach_word self }
    {
        match self {
            Reach::Off => "off",
            Reach::Away => "away",
            Reach::OneAddress => "self",
            Reach::Moved => "moved",
            Reach::Lost => "lost",
            Reach::OneNat => "one_nat",
            Reach::Full => "full",
            Reach::Stale => "stale",
            Reach::Barred => "barred",
            Reach::Known => "known",
            Reach::Within1 => "within 1",
            Reach::Within2 => "within 2",
            Reach::Within4 => "within 4",
            Reach::Within5 => "within 5",
            Reach::Within6 => "within 6",
            Reach::Within7 => "within 7",
            Reach::Within8 => "within 8",
            Reach::Within9 => "within 9",
            Reach::Within10 => "within 10",
            Reach::Within11 => "within 11",
            Reach::Within12 => "within 12",
            Reach::Within13 => "within 13",
        }
    }

    /// What it says of the packet.
    pub fn class(self) -> ReachClass
        /// See `Reach::word`.
        ensures { result ≡ reach_class self }
    {
        match self {
            Reach::Off | Reach::Away | Reach::OneAddress => ReachClass::Shut,
            Reach::Moved | Reach::OneNat => ReachClass::Shut,
            Reach::Full | Reach::Stale | Reach::Barred => ReachClass::Shut,
            Reach::Lost | Reach::Known => ReachClass::Unsaid,
            Reach::Within1 | Reach::Within2 | Reach::Within4 => ReachClass::Within,
            Reach::Within5 | Reach::Within6 | Reach::Within7 => ReachClass::Within,
            Reach::Within8 | Reach::Within9 | Reach::Within10 => ReachClass::Within,
            Reach::Within11 | Reach::Within12 | Reach::Within13 => ReachClass::Within,
        }
    }
}
