//! A source, a sink or a link that tells what it was asked.
ghost use Rattle.std.specs.Prelude.{◌≡◌, ◌≤◌, ◌<◌, ℕ, List, Option, Some, length, option_map, IfOk, IsOk, OnOk, OnErr, MatchResult, is_ok};
ghost use Rattle.td_outside.specs.Moves.{Gains, RisesBy};

use std::alloc::Global;
use td_base::{DATAGRAM_MAX, Ep, Ip4, Octets, Side};
use td_outside::{Addresses, Arrival, Failed, Link, Place, Sink, Source};

/// Passes each call on to what it is made over, and tells what was asked as long as there is memory for it.
#[derive(Drop)]
pub struct Recorder<T: Drop, A: Drop> {
    alloc: Global,
    over: T,
    // the names, the pieces or the places
    asked: Option<Vec<A>>,
    // how many bytes were read
    taken: Option<u64>,
}

impl<T: Drop, A: Drop> Recorder<T, A> {
    pub fn new(alloc: Global, over: T) -> Recorder<T, A> {
        Recorder {
            alloc,
            over,
            asked: Some(Vec::new(alloc)),
            taken: Some(0),
        }
    }
}

// What is told once this was asked too.
fn told_with<A: Drop>(told: Option<Vec<A>>, asked: A) -> Option<Vec<A>>
    ensures { Gains (option_map (λ v. v.items) told) (option_map (λ v. v.items) result) asked }
{
    let mut told = told?;
    match told.push(asked) {
        Ok(()) => Some(told),
        Err(_) => None,
    }
}

// The same of bytes, which are copied.
fn told_with_bytes(alloc: Global, told: Option<Vec<Octets>>, bytes: &[u8]) -> Option<Vec<Octets>>
    ensures { Gains (option_map (λ v. v.items) told) (option_map (λ v. v.items) result) bytes.now }
{
    match Octets::new(alloc, bytes) {
        Ok(octets) => told_with(told, octets),
        Err(_) => None,
    }
}

// How many bytes were read, with these.
fn taken_with(taken: Option<u64>, count: usize) -> Option<u64>
    ensures { RisesBy taken result count }
{
    taken?.checked_add(count as u64)
}

impl<S: Source + Drop> Source for Recorder<S, Octets> {
    ghost state = { λ s. record (S.state s.over) { openings = option_map (λ v. v.items) s.asked; taken = s.taken } };

    fn open(&mut self, name: &str) -> Result<(), Failed> {
        self.asked = told_with_bytes(self.alloc, self.asked.take(), name.as_bytes());
        self.over.open(name)
    }

    fn read(&mut self, buf: &mut [u8]) -> Result<usize, Failed> {
        let count = self.over.read(buf)?;
        self.taken = taken_with(self.taken, count);
        Ok(count)
    }
}

impl<K: Sink + Drop> Sink for Recorder<K, Octets> {
    ghost state = { λ s. record (K.state s.over) { pieces = option_map (λ v. v.items) s.asked } };

    fn write(&mut self, piece: &[u8]) -> Result<usize, Failed> {
        self.asked = told_with_bytes(self.alloc, self.asked.take(), piece);
        self.over.write(piece)
    }
}

impl<L: Link + Drop> Link for Recorder<L, Place> {
    ghost state = { λ s. record (L.state s.over) { openings = option_map (λ v. v.items) s.asked } };

    fn open(&mut self, primary: Ip4, secondary: Ip4) -> Result<(), Failed> {
        let place = Place::Both(Addresses { primary, secondary });
        self.asked = told_with(self.asked.take(), place);
        self.over.open(primary, secondary)
    }

    fn open_client(&mut self, inside: Ip4) -> Result<Ep, Failed> {
        let place = Place::Client(Ep {
            ip: inside,
            port: 0,
        });
        self.asked = told_with(self.asked.take(), place);
        self.over.open_client(inside)
    }

    fn recv(&mut self, buf: &mut [u8; DATAGRAM_MAX]) -> Result<Arrival, Failed> {
        self.over.recv(buf)
    }

    fn send(&mut self, side: Side, to: Ep, bytes: &[u8]) -> Result<(), Failed> {
        self.over.send(side, to, bytes)
    }
}
