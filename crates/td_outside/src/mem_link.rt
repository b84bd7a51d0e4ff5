//! A link in memory.
ghost use Rattle.std.specs.Prelude.{◌≡◌, ◌≤◌, ◌<◌, ◌+◌, ◌-◌, ◌^◌, ◌↔◌, ℕ, List, [], ◌∷◌, ◌++◌, Option, Some, None, Ok};
ghost use Rattle.std.specs.Prelude.{length, take, drop, map, replicate, is_ok, IsOk, IsErr, IsTrue, IfOk, OnOk, nat_lt};
ghost use Rattle.std.specs.Prelude.{if◌then◌else◌, IfSome, MatchResult, vec_capacity};
ghost use Rattle.td_outside.specs.Causes.{HasCause};
ghost use Rattle.td_outside.specs.Calls.{fails_next, after_call};
ghost use Rattle.td_outside.specs.Link.{Nothing, Attempt, attempt, came_by, open_on, client_on, at_primary, next_came, FitsBuffer, IsAtItsSide};
ghost use Rattle.td_outside.specs.MemLink.{lists_of, came_from, received, sent, IsOnItsSide};
ghost use Rattle.td_outside.specs.declared.mem_link.TheConstants.{CLIENT_PORT};

use crate::fails::Fails;
use crate::mem_arrival::{bring_to_primary, give};
use crate::{Addresses, Arrival, Failed, Link, MemArrival, MemAttempt, Place};
use std::alloc::Global;
use std::marker::Model;
use td_base::{DATAGRAM_MAX, Ep, Ip4, NoMemory, Side};

/// The port of a link in memory that is a client's.
pub const CLIENT_PORT: u16 = 40000;

/// A link that receives what it was made with, and keeps what is sent. Its `open` and its `open_client` never fail.
/// After its last arrival it answers `Idle`.
#[derive(Drop)]
pub struct MemLink {
    on: Option<Place>,
    arrivals: Vec<MemArrival>,
    // how many arrivals were taken, and how often the answer was `Idle` past the last one
    at: usize,
    idle: u64,
    attempts: Vec<MemAttempt>,
    room: usize,
    // an attempt was made that there was no room for
    is_over: bool,
    receives: Fails,
    sends: Fails,
}

impl Model for MemLink {
    ghost use Rattle.std.specs.Prelude.{◌≡◌, ◌≤◌, ◌<◌, ◌++◌, length, take, drop, map, replicate, vec_capacity};
    ghost use Rattle.td_outside.specs.Link.{Nothing};
    ghost use Rattle.td_outside.specs.MemLink.{Recorded, IsOnItsSide, came_from, told_taken, told_attempts};

    ghost Value = { Recorded };

    ghost view = { λ s. record {
      place = s.on;
      coming = drop s.at (map came_from s.arrivals.items);
      taken = told_taken s.receives.made (take s.at (map came_from s.arrivals.items) ++ replicate s.idle Nothing);
      attempts = told_attempts s.is_over s.attempts.items;
      room = s.room;
      receives = s.receives;
      sends = s.sends;
    } };

    ghost invariant = { λ s. (s.at ≤ length s.arrivals.items) × (s.at < length s.arrivals.items → s.idle ≡ 0)
        × (s.idle ≤ s.receives.made) × (s.room ≤ vec_capacity s.attempts) × (length s.attempts.items ≤ s.room)
        × IsOnItsSide s.on (drop s.at (map came_from s.arrivals.items)) };
}

// Keeps an attempt where there is room for it, and answers whether there was none.
fn keep(attempts: &mut Vec<MemAttempt>, room: usize, attempt: MemAttempt) -> bool
    requires memory { room ≤ vec_capacity attempts.old }
    requires within { length attempts.old.items ≤ room }
    ensures over { IsTrue result ↔ (length attempts.old.items ≡ room) }
    ensures kept { attempts.new.items ≡ (if result then attempts.old.items else attempts.old.items ++ attempt ∷ []) }
    ensures room { room ≤ vec_capacity attempts.new }
{
    if attempts.len() == room {
        return true;
    }
    match attempts.push(attempt) {
        Ok(()) => false,
        Err(_) => unreachable!(),
    }
}

impl MemLink {
    /// A link that isn't open. `recv_fails` are the numbers of the calls of `recv` that fail, from 0, and
    /// `send_fails` those of `send`. It keeps the first `room` attempts.
    pub fn new(
        alloc: Global,
        arrivals: Vec<MemArrival>,
        room: usize,
        recv_fails: &[u64],
        send_fails: &[u64],
    ) -> Result<MemLink, NoMemory>
        /// See `MemSource::new`: `made`.
        ensures made { IfOk result (λ s. s ≡ record {
          place = None;
          coming = map came_from arrivals.items;
          taken = Some [];
          attempts = Some [];
          room = room;
          receives = record { listed = recv_fails.now; made = 0; faults = 0 };
          sends = record { listed = send_fails.now; made = 0; faults = 0 };
        }) }
    {
        let attempts = Vec::with_capacity(alloc, room)?;
        let receives = Fails::new(alloc, recv_fails)?;
        let sends = Fails::new(alloc, send_fails)?;
        Ok(MemLink {
            on: None,
            arrivals,
            at: 0,
            idle: 0,
            attempts,
            room,
            is_over: false,
            receives,
            sends,
        })
    }

    /// The attempts that it keeps: the first `room` of them.
    pub fn attempts(&self) -> &[MemAttempt]
        /// See `MemSink::as_slice`.
        ensures { IfSome self.now.attempts (λ attempts. result.now ≡ attempts) }
    {
        self.attempts.as_slice()
    }
}

impl Link for MemLink {
    ghost state = { λ s. record {
      place = s.place;
      openings = None;
      told = lists_of s;
      recv_faults = s.receives.faults;
      send_faults = s.sends.faults;
    } };

    fn open(&mut self, primary: Ip4, secondary: Ip4) -> Result<(), Failed>
        ensures opened { IsOk result }
        ensures state { self.new ≡ record self.old { place = open_on primary secondary } }
    {
        self.on = Some(Place::Both(Addresses { primary, secondary }));
        Ok(())
    }

    fn open_client(&mut self, inside: Ip4) -> Result<Ep, Failed>
        ensures opened { result ≡ Ok (record { ip = inside; port = CLIENT_PORT }) }
        ensures state { self.new ≡ record self.old { place = client_on (record { ip = inside; port = CLIENT_PORT }); coming = map at_primary self.old.coming } }
    {
        let at = Ep {
            ip: inside,
            port: CLIENT_PORT,
        };
        bring_to_primary(&mut self.arrivals, self.at);
        self.on = Some(Place::Client(at));
        Ok(at)
    }

    fn recv(&mut self, buf: &mut [u8; DATAGRAM_MAX]) -> Result<Arrival, Failed>
        ensures room { IfOk result (λ arrival. FitsBuffer arrival) }
        ensures side { IfOk result (λ arrival. IsAtItsSide self.old.place arrival) }
        ensures cause { HasCause self.old.receives.faults self.new.receives.faults result }
        /// See `MemSource::open`: `due`.
        ensures due { IsErr result ↔ IsTrue (fails_next self.old.receives) }
        ensures came { IfOk result (λ arrival. came_by buf.new arrival ≡ next_came self.old.coming) }
        ensures state { self.new ≡ received self.old }
    {
        self.receives.call()?;
        let Some(arrival) = self.arrivals.get(self.at) else {
            self.idle = self.idle.saturating_add(1);
            return Ok(Arrival::Idle);
        };
        self.at += 1;
        Ok(give(arrival, buf))
    }

    fn send(&mut self, side: Side, to: Ep, bytes: &[u8]) -> Result<(), Failed>
        requires most { length bytes.now ≤ DATAGRAM_MAX }
        ensures cause { HasCause self.old.sends.faults self.new.sends.faults result }
        /// See `MemSource::open`: `due`.
        ensures due { IsErr result ↔ IsTrue (fails_next self.old.sends) }
        ensures state { self.new ≡ sent self.old (attempt side to bytes.now (is_ok result)) }
    {
        let answer = self.sends.call();
        let attempt = MemAttempt::new(side, to, bytes, answer.is_ok());
        if keep(&mut self.attempts, self.room, attempt) {
            self.is_over = true;
        }
        answer
    }
}
