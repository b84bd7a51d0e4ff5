//! The events that a laboratory with NATs behind others isn't asked for.
ghost use Rattle.std.specs.Prelude.{◌≡◌};
ghost use Rattle.td_nested.specs.Nested.{is_left_out};

use events::Event;

/// Whether an event is one of the three: a NAT forgets, a send fails, all that is on the wire is delivered.
pub fn is_left_out(event: &Event) -> bool
    /// The events that it isn't asked for are those with `forget`, `fault` and `settle`.
    ensures { result ≡ is_left_out event.now }
{
    match event {
        Event::Forget { .. } => true,
        Event::Fault { .. } => true,
        Event::Settle => true,
        _ => false,
    }
}
