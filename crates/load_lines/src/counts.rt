//! How many packets have each end.
ghost use Rattle.std.specs.Prelude.{◌≡◌, ◌+◌, ◌≤◌, ◌++◌, ◌∷◌, [], List, ◌<◌, length};
ghost use Rattle.loads.specs.Ends.{Whereabouts};
ghost use Rattle.loads.specs.FollowLines.{packets_line};
ghost use Rattle.load_lines.specs.Counts.{Counts, rest_text, counts_text};

use events::EVENTS_MAX;
use loads::End;
use report::put_number;
use td_base::{LINE_LEN, LineBuf};

/// The most bytes of three counts with their words, and the end of the line.
const REST_LEN: usize = 79;

/// How many packets there are, and how many have each end.
#[derive(Clone, Copy, Debug)]
pub struct EndCounts {
    packets: u64,
    arrived: u64,
    waits: u64,
    held: u64,
    wire: u64,
    lost: u64,
}

impl EndCounts {
    /// No packets.
    pub fn new() -> EndCounts
        /// Counts of no packets are those of none, and with a packet more they are those with it.
        /// Needs: fewer packets than a scenario has events.
        ensures { Counts result [] }
    {
        EndCounts {
            packets: 0,
            arrived: 0,
            waits: 0,
            held: 0,
            wire: 0,
            lost: 0,
        }
    }

    /// Counts a packet more.
    pub fn add(&mut self, end: Option<End>)
        requires few { self.old.packets < EVENTS_MAX }
        /// See `EndCounts::new`.
        ensures { (ws : List Whereabouts) (w : Whereabouts) → Counts self.old ws → w.is_at ≡ end → Counts self.new (ws ++ w ∷ []) }
    {
        self.packets = self.packets.saturating_add(1);
        match end {
            None => {}
            Some(End::Arrived(_)) => self.arrived = self.arrived.saturating_add(1),
            Some(End::WaitsAt(_)) => self.waits = self.waits.saturating_add(1),
            Some(End::HeldAt(_)) => self.held = self.held.saturating_add(1),
            Some(End::OnWire(_)) => self.wire = self.wire.saturating_add(1),
            Some(End::Lost(_)) => self.lost = self.lost.saturating_add(1),
        }
    }
}

/// Appends how many are held, on the wire and lost, and the end of the line.
fn put_rest(counts: EndCounts, out: &mut LineBuf)
    requires { length out.old + REST_LEN ≤ LINE_LEN }
    ensures { out.new ≡ out.old ++ rest_text counts }
{
    out.push_text(b" held ");
    put_number(counts.held, out);
    out.push_text(b" wire ");
    put_number(counts.wire, out);
    out.push_text(b" lost ");
    put_number(counts.lost, out);
    out.push_text(b"\n");
}

/// Puts the line of these numbers in place of what the buffer held.
fn put_counts(counts: EndCounts, out: &mut LineBuf)
    ensures { out.new ≡ counts_text counts }
{
    out.clear();
    out.push_text(b"total packets ");
    put_number(counts.packets, out);
    out.push_text(b" arrived ");
    put_number(counts.arrived, out);
    out.push_text(b" waits ");
    put_number(counts.waits, out);
    put_rest(counts, out);
}

/// Puts the line on how many packets have each end in place of what the buffer held.
pub fn counts_line(counts: EndCounts, out: &mut LineBuf)
    /// The line on how many packets have each end is the stated text, in place of what the buffer held.
    /// Needs: that the numbers are those of the packets.
    ensures { (ws : List Whereabouts) → Counts counts ws → out.new ≡ packets_line ws }
{
    put_counts(counts, out);
}
