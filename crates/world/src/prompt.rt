//! What prompts a node.
ghost use Rattle.std.specs.Prelude.{◌≡◌};
ghost use Rattle.lab_nodes.specs.Call.{dst_lent, input_lent, IsShortInput};
ghost use Rattle.world.specs.Prompt.{IsPrompt, dst_by, input_by, done_by};

use crate::wire::Wire;
use crate::wire_entry::WireEntry;
use lab_nodes::Input;

/// What prompts a node to do something.
#[derive(Clone, Copy, Debug)]
pub enum Prompt<'a> {
    /// The entry of that number, which is delivered to it.
    Entry { number: u32 },
    /// A packet that its host hands it.
    Packet { bytes: &'a [u8] },
    /// The moment at which its tick is due.
    Tick,
}

/// What comes to a node by an entry of that number: where there is none, its tick. It is made at once, since it would
/// take longer to hand it on than to make it.
fn input_at(wire: &Wire, number: u32) -> Input<'_>
    ensures input { input_lent result ≡ input_by wire.now.items (Prompt.Entry number) }
    ensures dst { dst_lent result ≡ dst_by wire.now.items (Prompt.Entry number) }
    ensures short { IsShortInput (input_lent result) }
{
    let Some(entry) = wire.get(number as usize) else {
        return Input::Ticked;
    };
    match entry {
        WireEntry::Udp { src, dst, bytes } => Input::Arrived { src, dst, bytes },
        WireEntry::Six { bytes, .. } => Input::FromSix { bytes },
    }
}

/// What comes to a node by a prompt.
pub fn input_of<'a>(wire: &'a Wire, prompt: Prompt<'a>) -> Input<'a>
    requires there { IsPrompt wire.now.items wire.now.done prompt }
    ensures input { input_lent result ≡ input_by wire.now.items prompt.entry }
    ensures dst { dst_lent result ≡ dst_by wire.now.items prompt.entry }
    ensures short { IsShortInput (input_lent result) }
{
    match prompt {
        Prompt::Entry { number } => input_at(wire, number),
        Prompt::Packet { bytes } => Input::Given { bytes },
        Prompt::Tick => Input::Ticked,
    }
}

/// Remembers the entry as delivered that a node took.
pub fn remember(wire: &mut Wire, prompt: Prompt<'_>)
    ensures { wire.new ≡ record wire.old { done = done_by prompt.entry wire.old.done } }
{
    match prompt {
        Prompt::Entry { number } => wire.set_delivered(number as usize),
        Prompt::Packet { .. } => {}
        Prompt::Tick => {}
    }
}
