//! What holds of the numbers.
ghost use Rattle.events.specs.Numbers.{EventNumbers};

/// The limits of events are those of `docs/SCENARIOS.md`.
pub fn event_numbers()
    ensures { EventNumbers }
{}
