//! The words of an event's text, one after the other.
ghost use Rattle.std.specs.Prelude.{◌≡◌, ◌==◌, ◌≤◌, length, IfOk, IfErr};
ghost use Rattle.std.specs.List.{position_or_len};
ghost use Rattle.td_base.specs.Values.{number_of, ep_of};
ghost use Rattle.events.specs.Words.{space, bytes_spelled};
ghost use Rattle.events.specs.EventText.{no_word, a_word, word, no_more};
ghost use Rattle.events.specs.Verbs.{verb_of};
ghost use Rattle.topology.specs.Named.{any_kind, named};
ghost use Rattle.events.specs.NodeWords.{target_of};
ghost use Rattle.topology.specs.Named.{has_host, is_nat, is_client_of};
ghost use Rattle.events.specs.Answers.{ReadsAs, words_from};
ghost use Rattle.events.specs.declared.event_fault.EventFault.TheVariants.{At};

use crate::event::Event;
use crate::event_fault::EventFault;
use crate::node_words::target_word;
use crate::target::Target;
use crate::verb::{Verb, verb_named};
use crate::word_texts::bytes_word;
use memchr::memchr;
use std::alloc::Global;
use td_base::{DATAGRAM_MAX, Ep, Octets, read_ep, read_number};
use topology::{Topology, client_named, host_named, nat_named, node_named};

/// The words of a text from a place on. Behind the last word's end none is left.
#[derive(Clone, Copy)]
pub(crate) struct WordsLeft<'a> {
    pub(crate) text: &'a [u8],
    pub(crate) at: usize,
}

/// How many bytes stand before the first space.
fn word_len(text: &[u8]) -> usize
    ensures value { result ≡ position_or_len (λ byte. byte == space) text.now }
    ensures within { result ≤ length text.now }
{
    match memchr(b' ', text) {
        Some(len) => len,
        None => text.len(),
    }
}

/// The next word, and those behind it.
#[inline(always)]
fn next_word(words: WordsLeft) -> Result<(&[u8], WordsLeft), EventFault>
    ensures found { IfOk result (λ x. words_from words.entry.text.now words.entry.at ≡ a_word words.entry.at x.0.now (words_from x.1.text.now x.1.at)) }
    ensures none { IfErr result (λ e. (e ≡ At (length words.entry.text.now))
        × (words_from words.entry.text.now words.entry.at ≡ no_word (length words.entry.text.now))) }
{
    let WordsLeft { text, at } = words;
    if at > text.len() {
        return Err(EventFault::At { place: text.len() });
    }
    let left = &text[at..];
    let len = word_len(left);
    let behind = WordsLeft {
        text,
        at: at + len + 1,
    };
    Ok((&left[..len], behind))
}

/// The event, where no word is left.
pub(crate) fn no_more(event: Event, words: WordsLeft) -> Result<Event, EventFault>
    ensures { ReadsAs (λ e. e) result (no_more event (words_from words.entry.text.now words.entry.at)) }
{
    if words.at > words.text.len() {
        return Ok(event);
    }
    Err(EventFault::At { place: words.at })
}

/// A number up to `most`.
pub(crate) fn number(words: WordsLeft, most: u64) -> Result<(u64, WordsLeft), EventFault>
    ensures value { ReadsAs (λ x. (x.0, words_from x.1.text.now x.1.at)) result (word (number_of most) (words_from words.entry.text.now words.entry.at)) }
    ensures small { IfOk result (λ x. x.0 ≤ most) }
{
    let (word, behind) = next_word(words)?;
    let read = read_number(word, most).ok();
    let number = read.ok_or(EventFault::At { place: words.at })?;
    Ok((number, behind))
}

/// An endpoint.
pub(crate) fn endpoint(words: WordsLeft) -> Result<(Ep, WordsLeft), EventFault>
    ensures { ReadsAs (λ x. (x.0, words_from x.1.text.now x.1.at)) result (word ep_of (words_from words.entry.text.now words.entry.at)) }
{
    let (word, behind) = next_word(words)?;
    let read = read_ep(word).ok();
    let ep = read.ok_or(EventFault::At { place: words.at })?;
    Ok((ep, behind))
}

/// At most `most` bytes.
#[inline(always)]
pub(crate) fn bytes(
    alloc: Global,
    words: WordsLeft,
    most: usize,
) -> Result<(Octets, WordsLeft), EventFault>
    requires { most ≤ DATAGRAM_MAX }
    ensures { ReadsAs (λ x. (x.0, words_from x.1.text.now x.1.at)) result (word (bytes_spelled most) (words_from words.entry.text.now words.entry.at)) }
{
    let (word, behind) = next_word(words)?;
    let bytes = bytes_word(alloc, word, most)?.ok_or(EventFault::At { place: words.at })?;
    Ok((bytes, behind))
}

/// A client or native host.
pub(crate) fn host<'a>(
    t: &Topology,
    words: WordsLeft<'a>,
) -> Result<(u16, WordsLeft<'a>), EventFault>
    ensures { ReadsAs (λ x. (x.0, words_from x.1.text.now x.1.at)) result (word (named has_host t.now) (words_from words.entry.text.now words.entry.at)) }
{
    let (word, behind) = next_word(words)?;
    let number = host_named(t, word).ok_or(EventFault::At { place: words.at })?;
    Ok((number, behind))
}

/// Whom a packet is sent to.
#[inline(always)]
pub(crate) fn target<'a>(
    t: &Topology,
    words: WordsLeft<'a>,
) -> Result<(Target, WordsLeft<'a>), EventFault>
    ensures { ReadsAs (λ x. (x.0, words_from x.1.text.now x.1.at)) result (word (target_of t.now) (words_from words.entry.text.now words.entry.at)) }
{
    let (word, behind) = next_word(words)?;
    let target = target_word(t, word).ok_or(EventFault::At { place: words.at })?;
    Ok((target, behind))
}

/// A node.
pub(crate) fn node<'a>(
    t: &Topology,
    words: WordsLeft<'a>,
) -> Result<(u16, WordsLeft<'a>), EventFault>
    ensures { ReadsAs (λ x. (x.0, words_from x.1.text.now x.1.at)) result (word (named any_kind t.now) (words_from words.entry.text.now words.entry.at)) }
{
    let (word, behind) = next_word(words)?;
    let number = node_named(t, word).ok_or(EventFault::At { place: words.at })?;
    Ok((number, behind))
}

/// A NAT.
pub(crate) fn nat<'a>(
    t: &Topology,
    words: WordsLeft<'a>,
) -> Result<(u16, WordsLeft<'a>), EventFault>
    ensures { ReadsAs (λ x. (x.0, words_from x.1.text.now x.1.at)) result (word (named is_nat t.now) (words_from words.entry.text.now words.entry.at)) }
{
    let (word, behind) = next_word(words)?;
    let number = nat_named(t, word).ok_or(EventFault::At { place: words.at })?;
    Ok((number, behind))
}

/// A client behind a NAT.
pub(crate) fn client<'a>(
    t: &Topology,
    nat: u16,
    words: WordsLeft<'a>,
) -> Result<(u16, WordsLeft<'a>), EventFault>
    ensures { ReadsAs (λ x. (x.0, words_from x.1.text.now x.1.at)) result
        (word (named (is_client_of nat) t.now) (words_from words.entry.text.now words.entry.at)) }
{
    let (word, behind) = next_word(words)?;
    let number = client_named(t, nat, word).ok_or(EventFault::At { place: words.at })?;
    Ok((number, behind))
}

/// Which event it is.
pub(crate) fn verb(words: WordsLeft) -> Result<(Verb, WordsLeft), EventFault>
    ensures { ReadsAs (λ x. (x.0, words_from x.1.text.now x.1.at)) result (word verb_of (words_from words.entry.text.now words.entry.at)) }
{
    let (word, behind) = next_word(words)?;
    let verb = verb_named(word).ok_or(EventFault::At { place: words.at })?;
    Ok((verb, behind))
}
