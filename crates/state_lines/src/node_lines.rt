//! The lines on a client and a relay.
ghost use Rattle.std.specs.Prelude.{◌≡◌, ◌+◌, ◌≤◌, ◌++◌, length, option_map};
ghost use Rattle.states.specs.Facts.{client_is, relay_is};
ghost use Rattle.states.specs.Kept.{at_node};
ghost use Rattle.states.specs.StateLines.{phase_word, fact_text, fact_line};

use crate::fields::{Stamp, begin_line, put_address, put_moment};
use qualify::Phase;
use td_base::{Ip6, LINE_LEN, LineBuf, Millis};
use topology::Topology;

/// The most bytes of a phase's word.
const PHASE_LEN: usize = 10;

/// The most bytes of what a line says of a client or a relay.
const FACT_LEN: usize = 77;

/// The word of a phase.
fn phase_name(phase: Phase) -> &'static str
    ensures word { result.now ≡ phase_word phase }
    ensures short { length result.now ≤ PHASE_LEN }
{
    match phase {
        Phase::Cone => "cone",
        Phase::Restricted => "restricted",
        Phase::Secondary => "secondary",
        Phase::Qualified => "qualified",
        Phase::Symmetric => "symmetric",
        Phase::OffLine => "offline",
    }
}

/// Appends a client's phase and address, and when it is due.
fn put_client(phase: Phase, address: Option<Ip6>, due: Option<Millis>, out: &mut LineBuf)
    requires { length out.old + FACT_LEN ≤ LINE_LEN }
    ensures text { out.new ≡ out.old ++ fact_text (client_is phase address (option_map (λ m. m.0) due)) }
    ensures short { length out.new ≤ length out.old + FACT_LEN }
{
    out.push_text(b" ");
    out.push_text(phase_name(phase).as_bytes());
    out.push_text(b" ");
    put_address(address, out);
    out.push_text(b" due ");
    put_moment(due, out);
}

/// Appends when a relay is due.
fn put_relay(due: Option<Millis>, out: &mut LineBuf)
    requires { length out.old + FACT_LEN ≤ LINE_LEN }
    ensures text { out.new ≡ out.old ++ fact_text (relay_is (option_map (λ m. m.0) due)) }
    ensures short { length out.new ≤ length out.old + FACT_LEN }
{
    out.push_text(b" due ");
    put_moment(due, out);
}

/// Puts the line on a client in place of what the buffer held.
pub fn client_line(
    t: &Topology,
    stamp: Stamp,
    phase: Phase,
    address: Option<Ip6>,
    due: Option<Millis>,
    out: &mut LineBuf,
)
    /// The line on a client has its phase, its address if it has one, and when it is due; that on a relay when it is
    /// due.
    ensures { out.new ≡ fact_line t.now stamp.record stamp.moment.0 (at_node stamp.node (client_is phase address (option_map (λ m. m.0) due))) }
{
    begin_line(t, stamp, out);
    put_client(phase, address, due, out);
    out.push_text(b"\n");
}

/// Puts the line on a relay in place of what the buffer held.
pub fn relay_line(t: &Topology, stamp: Stamp, due: Option<Millis>, out: &mut LineBuf)
    /// See `client_line`.
    ensures { out.new ≡ fact_line t.now stamp.record stamp.moment.0 (at_node stamp.node (relay_is (option_map (λ m. m.0) due))) }
{
    begin_line(t, stamp, out);
    put_relay(due, out);
    out.push_text(b"\n");
}
