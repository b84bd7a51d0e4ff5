//! What was counted up to now.
ghost use Rattle.std.specs.Prelude.{◌≡◌, ◌&&◌, not};
ghost use Rattle.td_audit.specs.Counting.{more, no_counts, with_record};

/// All records, those with a datagram to and from the server, and those with neither.
#[derive(Clone, Copy, Debug)]
pub(crate) struct Counts {
    pub packets: u64,
    pub to: u64,
    pub from: u64,
    pub skipped: u64,
}

/// One more, where it counts. No capture has so many records that the sum would stop growing.
fn more(number: u64, counted: bool) -> u64
    ensures { result ≡ more number counted }
{
    if counted {
        number.saturating_add(1)
    } else {
        number
    }
}

/// A record with no datagram to or from the server is skipped.
fn is_skipped(to: bool, from: bool) -> bool
    ensures { result ≡ (not to && not from) }
{
    if to {
        return false;
    }
    !from
}

impl Counts {
    pub(crate) fn none() -> Counts
        ensures { result ≡ no_counts }
    {
        Counts {
            packets: 0,
            to: 0,
            from: 0,
            skipped: 0,
        }
    }

    /// These and one more record.
    #[tactic(auto, unfolding(crate::specs::Counting::with_record))]
    pub(crate) fn with(self, to: bool, from: bool) -> Counts
        ensures { result ≡ with_record self to from }
    {
        Counts {
            packets: more(self.packets, true),
            to: more(self.to, to),
            from: more(self.from, from),
            skipped: more(self.skipped, is_skipped(to, from)),
        }
    }
}
