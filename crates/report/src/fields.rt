//! The fields of a line, marks aside.
ghost use Rattle.std.specs.Prelude.{◌≡◌, ◌+◌, ◌*◌, ◌≤◌, ◌++◌, length, codes, decimal};
ghost use Rattle.td_base.specs.Texts.{ep_text};
ghost use Rattle.td_base.specs.Ip6Texts.{ip6_text};
ghost use Rattle.events.specs.Verbs.{verb_word};
ghost use Rattle.report.specs.Lines.{act_text, node_text, address_text, handed_text, late_text, gone_text};

use events::Verb;
use history::Act;
use td_base::{
    Ep, Ip6, LINE_LEN, LineBuf, NUMBER_LEN, SHORT_LEN, print_ep, print_ip6, print_number,
};
use topology::{NAME_LEN, Topology};

/// The most digits of a number of 32 bits.
pub const SHORT_NUMBER_LEN: usize = 10;

/// The most bytes of an endpoint.
pub const EP_LEN: usize = 21;

/// The most bytes of an event's word.
const VERB_LEN: usize = 8;

/// The most bytes of an act: `deliver:` and a number.
pub const ACT_LEN: usize = 28;

/// The most bytes of ` is ` and an IPv6 address.
pub const ADDRESS_LEN: usize = 44;

/// The most bytes of ` handed/` and a number.
pub const HANDED_LEN: usize = 28;

/// The most bytes of ` late/` and a number.
pub const LATE_LEN: usize = 26;

/// The most bytes of ` gone/` and a number.
pub const GONE_LEN: usize = 26;

/// Appends a number.
pub fn put_number(number: u64, out: &mut LineBuf)
    requires { length out.old + NUMBER_LEN ≤ LINE_LEN }
    /// A number, a node's name and a mark are appended as they stand in a record's line.
    /// Needs: that the most bytes of it have room.
    ensures text { out.new ≡ out.old ++ decimal number }
    /// See `put_number`: `text`.
    ensures short { length out.new ≤ length out.old + NUMBER_LEN }
{
    let _ = print_number(number, out);
}

/// Appends a number of 32 bits.
pub fn put_short(number: u32, out: &mut LineBuf)
    requires { length out.old + SHORT_NUMBER_LEN ≤ LINE_LEN }
    ensures text { out.new ≡ out.old ++ decimal number }
    ensures short { length out.new ≤ length out.old + SHORT_NUMBER_LEN }
{
    let _ = print_number(u64::from(number), out);
}

/// Appends an endpoint.
pub fn put_ep(ep: Ep, out: &mut LineBuf)
    requires { length out.old + EP_LEN ≤ LINE_LEN }
    ensures text { out.new ≡ out.old ++ ep_text ep }
    ensures short { length out.new ≤ length out.old + EP_LEN }
{
    // Each byte is read, so that it is known to have at most three digits.
    let [_a, _b, _c, _d] = ep.ip.0;
    let _ = print_ep(ep, out);
}

/// Appends an IPv6 address.
fn put_ip6(ip: Ip6, out: &mut LineBuf)
    requires { length out.old + SHORT_LEN ≤ LINE_LEN }
    ensures text { out.new ≡ out.old ++ ip6_text ip }
    ensures short { length out.new ≤ length out.old + SHORT_LEN }
{
    let _ = print_ip6(ip, out);
}

/// An event's word.
#[tactic(auto, using(crate::proofs::VerbLengths::verb_short))]
fn verb_name(verb: Verb) -> &'static str
    ensures word { result.now ≡ verb_word verb }
    ensures short { length result.now ≤ VERB_LEN }
{
    verb.name()
}

/// Appends an act.
pub fn put_act(act: Act, out: &mut LineBuf)
    requires { length out.old + ACT_LEN ≤ LINE_LEN }
    ensures text { out.new ≡ out.old ++ act_text act }
    ensures short { length out.new ≤ length out.old + ACT_LEN }
{
    match act {
        Act::Tick => out.push_text(b"tick"),
        Act::Deliver { number } => {
            out.push_text(b"deliver:");
            put_number(u64::from(number), out);
        }
        Act::Copy { number } => {
            out.push_text(b"copy:");
            put_number(u64::from(number), out);
        }
        Act::Plain { verb } => out.push_text(verb_name(verb).as_bytes()),
    }
}

/// Appends a node's name, or `-`.
pub fn put_node(t: &Topology, node: Option<u16>, out: &mut LineBuf)
    requires { length out.old + NAME_LEN ≤ LINE_LEN }
    /// See `put_number`: `text`.
    ensures text { out.new ≡ out.old ++ node_text t.now node }
    /// See `put_number`: `text`.
    ensures short { length out.new ≤ length out.old + NAME_LEN }
{
    let Some(node) = node else {
        return out.push_text(b"-");
    };
    match t.name_at(node) {
        None => out.push_text(b"-"),
        Some(name) => out.push_text(name.as_slice()),
    }
}

/// Appends the address that a client got, if it got one.
pub fn put_address(address: Option<Ip6>, out: &mut LineBuf)
    requires { length out.old + ADDRESS_LEN ≤ LINE_LEN }
    ensures text { out.new ≡ out.old ++ address_text address }
    ensures short { length out.new ≤ length out.old + ADDRESS_LEN }
{
    if let Some(ip) = address {
        out.push_text(b" is ");
        put_ip6(ip, out);
    }
}

/// Appends the length of a packet that was handed to a client's host, if one was.
pub fn put_handed(handed: Option<usize>, out: &mut LineBuf)
    requires { length out.old + HANDED_LEN ≤ LINE_LEN }
    ensures text { out.new ≡ out.old ++ handed_text handed }
    ensures short { length out.new ≤ length out.old + HANDED_LEN }
{
    if let Some(len) = handed {
        out.push_text(b" handed/");
        put_number(len as u64, out);
    }
}

/// Appends the length of a packet that was handed over late.
fn put_late(len: usize, out: &mut LineBuf)
    requires { length out.old + LATE_LEN ≤ LINE_LEN }
    ensures text { out.new ≡ out.old ++ (codes " late/" ++ decimal len) }
    ensures short { length out.new ≤ length out.old + LATE_LEN }
{
    out.push_text(b" late/");
    put_number(len as u64, out);
}

/// Appends the lengths of the packets that were handed over late.
pub fn put_lates(lens: &[usize], out: &mut LineBuf)
    requires { length out.old + LATE_LEN * length lens.now ≤ LINE_LEN }
    ensures text { out.new ≡ out.old ++ late_text lens.now }
    ensures short { length out.new ≤ length out.old + LATE_LEN * length lens.now }
{
    for len in lens {
        put_late(*len, out);
    }
}

/// Appends how many packets that waited or were held were dropped, if any were.
pub fn put_gone(gone: u16, out: &mut LineBuf)
    requires { length out.old + GONE_LEN ≤ LINE_LEN }
    ensures text { out.new ≡ out.old ++ gone_text gone }
    ensures short { length out.new ≤ length out.old + GONE_LEN }
{
    if gone > 0 {
        out.push_text(b" gone/");
        put_number(u64::from(gone), out);
    }
}
