//! An event of three words.
ghost use Rattle.std.specs.Prelude.{◌≡◌, ◌<◌, ◌≤◌, ◌%◌, ◌+◌, IfOk};
ghost use Rattle.events.specs.Events.{IsEvent};
ghost use Rattle.events.specs.declared.event.TheConstants.{EVENTS_MAX};
ghost use Rattle.generator.specs.GeneratedNodes.{nat_number, client_number, native_number, generated_nodes};
ghost use Rattle.generator.specs.GeneratedEvent.{host_event, copy_event, upset_event, sent_event, event_of_kind, generated_event};

use crate::nodes::{FIRST_CLIENT, FIRST_NAT, FIRST_NATIVE, external_ip};
use events::{Event, Target};
use std::alloc::Global;
use td_base::{Ep, Ip4, NoMemory, Octets};

/// A millisecond more than an event lets pass at most.
pub const ADVANCE_END_MS: u32 = 5_000;

/// Where copies come from.
const STRANGER: Ep = Ep {
    ip: Ip4([203, 0, 113, 5]),
    port: 9,
};

/// The first port that a NAT gives.
const FIRST_PORT: u16 = 1024;

fn nat_number(word: u32) -> u16
    ensures { result ≡ nat_number word }
{
    FIRST_NAT + (word % 4) as u16
}

fn client_number(word: u32) -> u16
    ensures { result ≡ client_number word }
{
    FIRST_CLIENT + (word % 8) as u16
}

fn native_number(word: u32) -> u16
    ensures { result ≡ native_number word }
{
    FIRST_NATIVE + (word % 2) as u16
}

/// A node's host sends the four bytes of a word to another node, the highest first.
fn host_event(alloc: Global, node: u16, to: u16, word: u32) -> Result<Event, NoMemory>
    ensures { IfOk result (λ e. e ≡ host_event node to word) }
{
    Ok(Event::Host {
        node,
        to: Target::Node(to),
        body: Octets::new(alloc, &word.to_be_bytes())?,
    })
}

/// An earlier entry comes again, to the first port of NAT `nat`.
fn copy_event(number: u32, nat: u8) -> Event
    requires { nat < 4 }
    ensures { result ≡ copy_event number nat }
{
    Event::Copy {
        number,
        src: STRANGER,
        dst: Ep {
            ip: external_ip(nat),
            port: FIRST_PORT,
        },
    }
}

fn upset_event(index: u32, b: u32, c: u32) -> Event
    requires { index < EVENTS_MAX }
    ensures { result ≡ upset_event index b c }
{
    let choice = b % 4;
    if choice == 0 {
        return Event::Restart {
            node: client_number(c),
        };
    }
    if choice == 1 {
        return Event::Restart {
            node: nat_number(c),
        };
    }
    if choice == 2 {
        return Event::Forget {
            nat: nat_number(c),
            client: client_number(c % 4),
        };
    }
    copy_event(c % (index + 1), (c % 4) as u8)
}

fn sent_event(alloc: Global, kind: u32, b: u32, c: u32) -> Result<Event, NoMemory>
    ensures { IfOk result (λ e. e ≡ sent_event kind b c) }
{
    if kind < 13 {
        return host_event(alloc, client_number(b), client_number(c), c);
    }
    if kind == 13 {
        return host_event(alloc, client_number(b), native_number(c), c);
    }
    host_event(alloc, native_number(b), client_number(c), c)
}

fn event_of_kind(alloc: Global, kind: u32, index: u32, b: u32, c: u32) -> Result<Event, NoMemory>
    requires { index < EVENTS_MAX }
    ensures { IfOk result (λ e. e ≡ event_of_kind kind index b c) }
{
    if kind < 6 {
        return Ok(Event::Next);
    }
    if kind < 8 {
        return Ok(Event::Deliver {
            number: b % (index + 1),
        });
    }
    if kind < 11 {
        return Ok(Event::Advance {
            ms: u64::from(b % ADVANCE_END_MS),
        });
    }
    if kind < 15 {
        return sent_event(alloc, kind, b, c);
    }
    Ok(upset_event(index, b, c))
}

/// Event `index`, of its three words.
#[tactic(auto, unfolding(crate::specs::GeneratedEvent::generated_event))]
pub(crate) fn generated_event(
    alloc: Global,
    index: u32,
    a: u32,
    b: u32,
    c: u32,
) -> Result<Event, NoMemory>
    requires { index < EVENTS_MAX }
    ensures { IfOk result (λ e. e ≡ generated_event index a b c) }
{
    event_of_kind(alloc, a % 16, index, b, c)
}
