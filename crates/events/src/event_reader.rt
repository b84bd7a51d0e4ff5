//! The event that a text asks for.
ghost use Rattle.std.specs.Prelude.{◌≡◌, ℕ, IfOk};
ghost use Rattle.topology.specs.Rows.{TopologyState};
ghost use Rattle.events.specs.Events.{IsEvent};
ghost use Rattle.events.specs.EventText.{event_behind, event_of};
ghost use Rattle.events.specs.Answers.{ReadsAs, words_from};
ghost use Rattle.events.specs.declared.verb.Verb.TheVariants as verb;
ghost use Rattle.events.specs.declared.event_fault.EventFault.TheVariants.{At};

use crate::event::{ADVANCE_MAX_MS, BODY_MAX, ENTRY_NUMBER_MAX, Event, FAULT_MAX, SEQUENCE_MAX};
use crate::event_fault::EventFault;
use crate::event_words::{
    WordsLeft, bytes, client, endpoint, host, nat, no_more, node, number, target, verb,
};
use crate::verb::Verb;
use std::alloc::Global;
use td_base::DATAGRAM_MAX;
use topology::Topology;

#[tactic(auto, unfolding(crate::specs::EventText::event_behind))]
fn advance(words: WordsLeft) -> Result<Event, EventFault>
    ensures { (t : TopologyState) → ReadsAs (λ e. e) result (event_behind t verb.Advance (words_from words.entry.text.now words.entry.at)) }
{
    let (ms, words) = number(words, ADVANCE_MAX_MS)?;
    no_more(Event::Advance { ms }, words)
}

#[tactic(auto, unfolding(crate::specs::EventText::event_behind))]
fn deliver(words: WordsLeft) -> Result<Event, EventFault>
    ensures { (t : TopologyState) → ReadsAs (λ e. e) result (event_behind t verb.Deliver (words_from words.entry.text.now words.entry.at)) }
{
    let (number, words) = number(words, u64::from(ENTRY_NUMBER_MAX))?;
    no_more(
        Event::Deliver {
            number: number as u32,
        },
        words,
    )
}

#[tactic(auto, unfolding(crate::specs::EventText::event_behind))]
fn host_event(alloc: Global, t: &Topology, words: WordsLeft) -> Result<Event, EventFault>
    ensures { ReadsAs (λ e. e) result (event_behind t.now verb.Host (words_from words.entry.text.now words.entry.at)) }
{
    let (node, words) = host(t, words)?;
    let (to, words) = target(t, words)?;
    let (body, words) = bytes(alloc, words, BODY_MAX)?;
    no_more(Event::Host { node, to, body }, words)
}

#[tactic(auto, unfolding(crate::specs::EventText::event_behind))]
fn echo(t: &Topology, words: WordsLeft) -> Result<Event, EventFault>
    ensures { ReadsAs (λ e. e) result (event_behind t.now verb.Echo (words_from words.entry.text.now words.entry.at)) }
{
    let (node, words) = host(t, words)?;
    let (to, words) = target(t, words)?;
    let (seq, words) = number(words, u64::from(SEQUENCE_MAX))?;
    no_more(
        Event::Echo {
            node,
            to,
            seq: seq as u16,
        },
        words,
    )
}

#[tactic(auto, unfolding(crate::specs::EventText::event_behind))]
fn raw(alloc: Global, t: &Topology, words: WordsLeft) -> Result<Event, EventFault>
    ensures { ReadsAs (λ e. e) result (event_behind t.now verb.Raw (words_from words.entry.text.now words.entry.at)) }
{
    let (node, words) = host(t, words)?;
    let (bytes, words) = bytes(alloc, words, DATAGRAM_MAX)?;
    no_more(Event::Raw { node, bytes }, words)
}

#[tactic(auto, unfolding(crate::specs::EventText::event_behind))]
fn stranger(alloc: Global, words: WordsLeft) -> Result<Event, EventFault>
    ensures { (t : TopologyState) → ReadsAs (λ e. e) result (event_behind t verb.Stranger (words_from words.entry.text.now words.entry.at)) }
{
    let (src, words) = endpoint(words)?;
    let (dst, words) = endpoint(words)?;
    let (bytes, words) = bytes(alloc, words, DATAGRAM_MAX)?;
    no_more(Event::Stranger { src, dst, bytes }, words)
}

#[tactic(auto, unfolding(crate::specs::EventText::event_behind))]
fn copy(words: WordsLeft) -> Result<Event, EventFault>
    ensures { (t : TopologyState) → ReadsAs (λ e. e) result (event_behind t verb.Copy (words_from words.entry.text.now words.entry.at)) }
{
    let (number, words) = number(words, u64::from(ENTRY_NUMBER_MAX))?;
    let (src, words) = endpoint(words)?;
    let (dst, words) = endpoint(words)?;
    no_more(
        Event::Copy {
            number: number as u32,
            src,
            dst,
        },
        words,
    )
}

#[tactic(auto, unfolding(crate::specs::EventText::event_behind))]
fn restart(t: &Topology, words: WordsLeft) -> Result<Event, EventFault>
    ensures { ReadsAs (λ e. e) result (event_behind t.now verb.Restart (words_from words.entry.text.now words.entry.at)) }
{
    let (node, words) = node(t, words)?;
    no_more(Event::Restart { node }, words)
}

#[tactic(auto, unfolding(crate::specs::EventText::event_behind))]
fn forget(t: &Topology, words: WordsLeft) -> Result<Event, EventFault>
    ensures { ReadsAs (λ e. e) result (event_behind t.now verb.Forget (words_from words.entry.text.now words.entry.at)) }
{
    let (nat, words) = nat(t, words)?;
    let (client, words) = client(t, nat, words)?;
    no_more(Event::Forget { nat, client }, words)
}

#[tactic(auto, unfolding(crate::specs::EventText::event_behind))]
fn fault(words: WordsLeft) -> Result<Event, EventFault>
    ensures { (t : TopologyState) → ReadsAs (λ e. e) result (event_behind t verb.Fault (words_from words.entry.text.now words.entry.at)) }
{
    let (send, words) = number(words, u64::from(FAULT_MAX))?;
    no_more(Event::Fault { send: send as u8 }, words)
}

#[tactic(auto, unfolding(crate::specs::EventText::event_behind))]
fn event_behind(
    alloc: Global,
    t: &Topology,
    verb: Verb,
    words: WordsLeft,
) -> Result<Event, EventFault>
    ensures { ReadsAs (λ e. e) result (event_behind t.now verb (words_from words.entry.text.now words.entry.at)) }
{
    match verb {
        Verb::Advance => advance(words),
        Verb::Deliver => deliver(words),
        Verb::Next => no_more(Event::Next, words),
        Verb::Host => host_event(alloc, t, words),
        Verb::Echo => echo(t, words),
        Verb::Raw => raw(alloc, t, words),
        Verb::Stranger => stranger(alloc, words),
        Verb::Copy => copy(words),
        Verb::Restart => restart(t, words),
        Verb::Forget => forget(t, words),
        Verb::Fault => fault(words),
        Verb::Settle => no_more(Event::Settle, words),
    }
}

#[tactic(auto, unfolding(crate::specs::EventText::event_of), using(crate::proofs::WordsLemmas::whole))]
fn event_from(alloc: Global, t: &Topology, text: &[u8]) -> Result<Event, EventFault>
    ensures { ReadsAs (λ e. e) result (event_of t.now text.now) }
{
    let words = WordsLeft { text, at: 0 };
    let (verb, words) = verb(words)?;
    event_behind(alloc, t, verb, words)
}

/// Reads the event that a text asks for.
pub fn read_event(alloc: Global, t: &Topology, text: &[u8]) -> Result<Event, EventFault>
    /// A text is read as the event that it asks for, by the rules of its words in order. It is stated in
    /// `EventText.antt`, with the words in `Words.antt`, `td_base/Values.antt`, `td_base/Ip6Values.antt`,
    /// `NodeWords.antt` and `Verbs.antt`.
    ensures read { IfOk result (λ e. event_of t.now text.now ≡ Ok e) }
    /// An event that is read is one that a scenario with these nodes may ask for. Its numbers are within their limits,
    /// those of nodes are of nodes that can do so, and its addresses, ports and bytes are as datagrams have them.
    ensures legal { IfOk result (λ e. IsEvent t.now e) }
    /// A text is refused only where it asks for no event, at the place of the first word that breaks its rule, or of
    /// the first word too many. Where a word is missing, it is refused at the place of the text's end. Given memory,
    /// these are exactly the texts that are refused.
    /// Leaves open: when memory runs out.
    ensures fault { (place : ℕ) → result ≡ Err (At place) → event_of t.now text.now ≡ Err place }
{
    event_from(alloc, t, text)
}
