//! Bubbles and tests: what a client sends to open the way to a peer.
ghost use Rattle.std.specs.Prelude.{◌≡◌, ◌<◌, ◌∷◌, [], length};
ghost use Rattle.byteorder.specs.Endian.{big_bytes};
ghost use Rattle.icmp6.specs.Message.{echo_request};
ghost use Rattle.icmp6.specs.Layout.{message_bytes};
ghost use Rattle.teredo_addr.specs.Teredo.{has_cone};
ghost use Rattle.teredo_node.specs.declared.step.TheConstants.{SENDS_MAX};
ghost use Rattle.teredo_node.specs.Sends.{sending};
ghost use Rattle.teredo_node.specs.Step.{just, with_send};
ghost use Rattle.teredo_node.specs.Words.{nonce_from};
ghost use Rattle.qualify.specs.Generator.{words_of, after_words};
ghost use Rattle.client_rules.specs.Tries.{direct_bubble, both_bubbles, test, test_bytes, try_sends, try_words, try_nonce};

use crate::conditions::nonce_bytes;
use crate::limits::{TEST_LEN, TEST_MESSAGE_LEN};
use bubble::{BUBBLE, BUBBLE_HOP, make_bubble};
use client_rules::{TEST_ID, TEST_SEQ};
use icmp6::Msg;
use ipv6_packet::{NEXT_ICMP, Packet};
use qualify::{NONCE_WORDS, Settings, draw_nonce};
use rand_chacha::ChaCha20Rng;
use td_base::{Ep, Ip6, Side};
use teredo_addr::{embedded, has_cone, is_teredo, server_of};
use teredo_node::{Fate, Step};

/// Sends a bubble to a peer at an endpoint.
pub fn send_bubble(own: Ip6, peer: Ip6, to: Ep, step: &mut Step)
    requires { length step.old.sends < SENDS_MAX }
    ensures { step.new ≡ with_send step.old (direct_bubble own peer to) }
{
    let mut bytes = [0; BUBBLE];
    make_bubble(own, peer, &mut bytes);
    step.push(Side::Primary, to, &bytes);
}

/// The message of a test.
fn test_message(own: Ip6, peer: Ip6, nonce: u64) -> [u8; TEST_MESSAGE_LEN]
    ensures { result ≡ message_bytes own peer (echo_request TEST_ID TEST_SEQ (big_bytes 8 nonce)) }
{
    let message = Msg::EchoRequest {
        id: TEST_ID,
        seq: TEST_SEQ,
        body: &nonce_bytes(nonce),
    };
    let mut bytes = [0; TEST_MESSAGE_LEN];
    icmp6::write(&message, own, peer, &mut bytes).unwrap();
    bytes
}

/// A test: an echo request whose data is a nonce.
fn test_packet(own: Ip6, peer: Ip6, nonce: u64) -> [u8; TEST_LEN]
    ensures { result ≡ test_bytes own peer nonce }
{
    let packet = Packet {
        class: 0,
        flow: 0,
        next: NEXT_ICMP,
        hop: BUBBLE_HOP,
        src: own,
        dst: peer,
        body: &test_message(own, peer, nonce),
    };
    let mut bytes = [0; TEST_LEN];
    ipv6_packet::write(&packet, &mut bytes).unwrap();
    bytes
}

/// Begins a step with this fate by a test of a peer, through the client's server, and answers its nonce.
pub fn send_test(
    settings: &Settings,
    own: Ip6,
    peer: Ip6,
    fate: Fate,
    rng: &mut ChaCha20Rng,
    step: &mut Step,
) -> u64
    ensures nonce { result ≡ nonce_from (words_of rng.old) }
    ensures step { step.new ≡ record (sending fate (test settings.now own peer (nonce_from (words_of rng.old)) ∷ [])) { drawn = 2 } }
    ensures place { rng.new ≡ after_words 2 rng.old }
{
    let nonce = draw_nonce(rng);
    step.reset(fate);
    step.push(
        Side::Primary,
        Ep::of_server(settings.primary),
        &test_packet(own, peer, nonce),
    );
    step.set_drawn(NONCE_WORDS);
    nonce
}

/// Begins a step with this fate by bubbles to another client: a direct one unless this client is cone, and one through
/// the peer's server.
fn send_bubbles(own: Ip6, peer: Ip6, fate: Fate, step: &mut Step)
    ensures { step.new ≡ sending fate (both_bubbles (has_cone own) own peer) }
{
    step.reset(fate);
    if !has_cone(own) {
        send_bubble(own, peer, embedded(peer), step);
    }
    send_bubble(own, peer, Ep::of_server(server_of(peer)), step);
}

/// Begins a step with this fate by a try at a peer, and answers the nonce, where that is a test.
#[tactic(auto, unfolding(client_rules::specs::Tries::try_sends, qualify::specs::Generator::after_words))]
pub fn send_try(
    settings: &Settings,
    own: Ip6,
    peer: Ip6,
    fate: Fate,
    rng: &mut ChaCha20Rng,
    step: &mut Step,
) -> Option<u64>
    ensures nonce { result ≡ try_nonce peer (words_of rng.old) }
    ensures step { step.new ≡ record (sending fate (try_sends settings.now own peer (words_of rng.old))) { drawn = try_words peer } }
    ensures place { rng.new ≡ after_words (try_words peer) rng.old }
{
    if is_teredo(peer) {
        send_bubbles(own, peer, fate, step);
        return None;
    }
    Some(send_test(settings, own, peer, fate, rng, step))
}
