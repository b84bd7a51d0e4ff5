//! The lines on what a client and a relay know of a peer.
ghost use Rattle.std.specs.Prelude.{◌≡◌, ◌+◌, ◌*◌, ◌≤◌, ◌++◌, not, map, reverse, length};
ghost use Rattle.peer_list.specs.Listed.{is_younger};
ghost use Rattle.peer_list.specs.Judged.{is_none, young_tries};
ghost use Rattle.states.specs.Facts.{client_knows, relay_knows};
ghost use Rattle.states.specs.Kept.{peer_fact, at_node};
ghost use Rattle.states.specs.StateLines.{or_dash, moments_text, nonce_text, peer_text, fact_text, fact_line};
ghost use Rattle.state_lines.specs.Moments.{comma_if, dash_unless, young_moments, tries_text};

use crate::fields::{Stamp, begin_line, put_ip6, put_moment, put_number, put_place};
use peer_list::{LISTED_MS, Peer, TRIES_MAX};
use td_base::{Ip6, LINE_LEN, LineBuf, Millis, put64};
use topology::Topology;

/// The digits of a nonce.
const NONCE_LEN: usize = 16;

/// The most bytes of a try and the comma before it.
const TRY_LEN: usize = 21;

/// The most bytes of what both lines say of a peer.
const PEER_LEN: usize = 238;

/// The most bytes of what a line says of a peer.
const FACT_LEN: usize = 320;

/// Whether a peer is listed by what was at that moment.
fn is_young(now: Millis, moment: Millis) -> bool
    ensures { result ≡ is_younger LISTED_MS now.0 moment.0 }
{
    now.0.saturating_sub(moment.0) < LISTED_MS
}

/// Appends a comma where something stands before it.
fn put_comma(any: bool, out: &mut LineBuf)
    requires { length out.old + 1 ≤ LINE_LEN }
    ensures text { out.new ≡ out.old ++ comma_if any }
    ensures short { length out.new ≤ length out.old + 1 }
{
    if any {
        out.push_text(b",");
    }
}

/// Appends `-` where nothing else stands there.
fn put_dash(any: bool, out: &mut LineBuf)
    requires { length out.old + 1 ≤ LINE_LEN }
    ensures text { out.new ≡ out.old ++ dash_unless any }
    ensures short { length out.new ≤ length out.old + 1 }
{
    if !any {
        out.push_text(b"-");
    }
}

/// Appends the tries that count, of which the latest stand first, in their order; and answers whether there are any.
fn put_tries(now: Millis, tries: &[Millis], out: &mut LineBuf) -> bool
    requires { length out.old + TRY_LEN * length tries.now ≤ LINE_LEN }
    ensures text { out.new ≡ out.old ++ tries_text now.0 (map (λ m. m.0) tries.now) }
    ensures any { result ≡ not (is_none (young_moments now.0 (map (λ m. m.0) tries.now))) }
    ensures short { length out.new ≤ length out.old + TRY_LEN * length tries.now }
{
    let [latest, earlier @ ..] = tries else {
        return false;
    };
    let any = put_tries(now, earlier, out);
    if !is_young(now, *latest) {
        return any;
    }
    put_comma(any, out);
    put_number(latest.0, out);
    true
}

/// Appends a peer's tries that count, or `-`.
fn put_all_tries(now: Millis, peer: &Peer, out: &mut LineBuf)
    requires { length out.old + TRY_LEN * TRIES_MAX + 1 ≤ LINE_LEN }
    ensures text { out.new ≡ out.old ++ moments_text (reverse (young_tries now.0 peer.now)) }
    ensures short { length out.new ≤ length out.old + TRY_LEN * TRIES_MAX + 1 }
{
    let any = put_tries(now, peer.tries(), out);
    put_dash(any, out);
}

/// Appends a nonce as sixteen digits.
fn put_nonce(nonce: u64, out: &mut LineBuf)
    requires { length out.old + NONCE_LEN ≤ LINE_LEN }
    ensures text { out.new ≡ out.old ++ nonce_text nonce }
    ensures short { length out.new ≤ length out.old + NONCE_LEN }
{
    let mut bytes = [0; 8];
    put64(&mut bytes, 0, nonce);
    let mut digits = [0; NONCE_LEN];
    if hex::encode_to_slice(bytes.as_slice(), &mut digits).is_err() {
        unreachable!();
    }
    out.push_text(&digits);
}

/// Appends a nonce, or `-`.
fn put_nonce_or_dash(nonce: Option<u64>, out: &mut LineBuf)
    requires { length out.old + NONCE_LEN ≤ LINE_LEN }
    ensures text { out.new ≡ out.old ++ or_dash nonce_text nonce }
    ensures short { length out.new ≤ length out.old + NONCE_LEN }
{
    match nonce {
        None => out.push_text(b"-"),
        Some(nonce) => put_nonce(nonce, out),
    }
}

/// Appends what both lines say of a peer.
fn put_peer(now: Millis, who: Ip6, peer: &Peer, out: &mut LineBuf)
    requires { length out.old + PEER_LEN ≤ LINE_LEN }
    ensures text { out.new ≡ out.old ++ peer_text (peer_fact now.0 who peer.now) }
    ensures short { length out.new ≤ length out.old + PEER_LEN }
{
    out.push_text(b" peer ");
    put_ip6(who, out);
    out.push_text(b" at ");
    put_place(peer.trusted(), out);
    out.push_text(b" heard ");
    put_moment(peer.heard(), out);
    out.push_text(b" touched ");
    put_number(peer.touched().0, out);
    out.push_text(b" tries ");
    put_all_tries(now, peer, out);
}

/// How many packets wait for a peer.
fn waiting_count(peer: &Peer) -> u64
    ensures { result ≡ length peer.now.waiting }
{
    peer.waiting().len() as u64
}

/// Appends what a client knows of a peer, of which so many packets are held.
fn put_client_peer(now: Millis, who: Ip6, peer: &Peer, held: u8, out: &mut LineBuf)
    requires room { length out.old + FACT_LEN ≤ LINE_LEN }
    requires held { held ≡ length peer.now.held }
    ensures text { out.new ≡ out.old ++ fact_text (client_knows (peer_fact now.0 who peer.now)) }
    ensures short { length out.new ≤ length out.old + FACT_LEN }
{
    put_peer(now, who, peer, out);
    out.push_text(b" nonce ");
    put_nonce_or_dash(peer.nonce(), out);
    out.push_text(b" waits ");
    put_number(waiting_count(peer), out);
    out.push_text(b" held ");
    put_number(u64::from(held), out);
}

/// Appends what a relay knows of a peer.
fn put_relay_peer(now: Millis, who: Ip6, peer: &Peer, out: &mut LineBuf)
    requires room { length out.old + FACT_LEN ≤ LINE_LEN }
    ensures text { out.new ≡ out.old ++ fact_text (relay_knows (peer_fact now.0 who peer.now)) }
    ensures short { length out.new ≤ length out.old + FACT_LEN }
{
    put_peer(now, who, peer, out);
    out.push_text(b" waits ");
    put_number(waiting_count(peer), out);
}

/// Puts the line on what a client knows of a peer in place of what the buffer held. So many packets of the peer are held.
pub fn client_peer_line(
    t: &Topology,
    stamp: Stamp,
    who: Ip6,
    peer: &Peer,
    held: u8,
    out: &mut LineBuf,
)
    requires { held ≡ length peer.now.held }
    /// The line on a peer has where it is trusted, when it was heard and touched last, those of its tries that count in
    /// their order, and how many packets wait for it; a client's also has the nonce of its test, and how many packets of
    /// it are held.
    /// Needs: for a client's, the number of held packets.
    ensures { out.new ≡ fact_line t.now stamp.record stamp.moment.0 (at_node stamp.node (client_knows (peer_fact stamp.moment.0 who peer.now))) }
{
    begin_line(t, stamp, out);
    put_client_peer(stamp.moment, who, peer, held, out);
    out.push_text(b"\n");
}

/// Puts the line on what a relay knows of a peer in place of what the buffer held.
pub fn relay_peer_line(t: &Topology, stamp: Stamp, who: Ip6, peer: &Peer, out: &mut LineBuf)
    /// See `client_peer_line`.
    ensures { out.new ≡ fact_line t.now stamp.record stamp.moment.0 (at_node stamp.node (relay_knows (peer_fact stamp.moment.0 who peer.now))) }
{
    begin_line(t, stamp, out);
    put_relay_peer(stamp.moment, who, peer, out);
    out.push_text(b"\n");
}
