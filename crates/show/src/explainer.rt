//! A word is explained.
ghost use Rattle.std.specs.Prelude.{◌≡◌, ◌≤◌, ℕ, true, List, [], None, Ok, is_ok, length};
ghost use Rattle.std.specs.Bool.{OnTrue, OnFalse};
ghost use Rattle.hex.specs.Hex.{decode_of};
ghost use Rattle.bubble.specs.Payloads.{Value, PayloadBytes};
ghost use Rattle.show.specs.Words.{bad_place, bytes_said};
ghost use Rattle.show.specs.Lines.{payload_lines};
ghost use Rattle.show.specs.Explained.{bytes_text, explained, text_of};
ghost use Rattle.show.specs.Shown.{ShowsPayload, ShowsNoPayload};

use crate::fault_lines::{put_fault, put_hex_fault};
use crate::page::Page;
use crate::payload_lines::put_payload;
use crate::words::{bad_place, put_bytes};
use bubble::PayloadFault;
use td_base::DATAGRAM_MAX;

/// Puts what bytes are on an empty page.
fn explain_bytes(bytes: &[u8], page: &mut Page) -> bool
    requires short { length bytes.now ≤ DATAGRAM_MAX }
    requires empty { page.old ≡ [] }
    ensures text { page.new ≡ text_of (bytes_text bytes.now) }
    ensures found { result ≡ is_ok (bytes_text bytes.now) }
{
    match bubble::read(bytes) {
        Ok(payload) => {
            put_payload(bytes, &payload, page);
            true
        }
        Err(fault) => {
            put_fault(fault, page);
            false
        }
    }
}

/// Puts what the bytes are that digits say on an empty page.
fn explain_digits(digits: &[u8], page: &mut Page) -> bool
    requires digits { bad_place digits.now ≡ None }
    requires empty { page.old ≡ [] }
    ensures text { page.new ≡ text_of (bytes_text (bytes_said digits.now)) }
    ensures found { result ≡ is_ok (bytes_text (bytes_said digits.now)) }
{
    let len = digits.len() / 2;
    if len > DATAGRAM_MAX {
        put_fault(PayloadFault::Long { len }, page);
        return false;
    }
    let mut room = [0; DATAGRAM_MAX];
    let bytes = &mut room[..len];
    put_bytes(digits, bytes);
    explain_bytes(bytes, page)
}

/// Puts what a word is in place of what the page held.
fn explain_word(word: &[u8], page: &mut Page) -> bool
    ensures text { page.new ≡ text_of (explained word.now) }
    ensures found { result ≡ is_ok (explained word.now) }
{
    page.clear();
    if let Some(place) = bad_place(word) {
        put_hex_fault(place, page);
        return false;
    }
    explain_digits(word, page)
}

/// Puts the lines of the payload that a word says in place of what the page held, or the line of the first fault.
/// Answers whether it is a payload.
pub fn explain(word: &[u8], page: &mut Page) -> bool
    /// Where `explain` answers true, the word is hexadecimal text of bytes that spell a payload, and exactly its lines
    /// stand on the page.
    /// Leaves open: whether a node would take the datagram, and whether an ICMPv6 message is right.
    ensures shown { OnTrue result (ShowsPayload word.now page.new) }
    /// A word of bytes that spell a payload is shown as it.
    ensures only { (x : List ℕ) (v : Value) → decode_of word.now ≡ Ok x → PayloadBytes v x → (result ≡ true) × (page.new ≡ payload_lines x v) }
    /// Where `explain` answers false, exactly one line stands on the page: the first place where the word is no
    /// hexadecimal text, or the first fault of its bytes.
    ensures fault { OnFalse result (ShowsNoPayload word.now page.new) }
    /// The page and the answer are one function of the word.
    ensures text { page.new ≡ text_of (explained word.now) }
    /// See `text`.
    ensures found { result ≡ is_ok (explained word.now) }
{
    explain_word(word, page)
}
