//! The loop of turns, with an endpoint that sends letters back.
ghost use Rattle.std.proofs.Common.{◌∙◌};
ghost use Rattle.std.specs.Prelude.{◌≡◌, ⊤, true, false, nat_le, if◌then◌else◌, refl};

use std::alloc::Global;
use std::test::Fail;
use td_base::{Ep, Ip4, Millis, NoMemory, Octets, Side, Span};
use td_outside::{Link, MemArrival, MemLink, TestClock};
use td_turns::{PumpFault, Pumped, Totals, pump, serve_loop, tick, tick_through};
use teredo_node::{Endpoint, Fate, SENDS_MAX, Step};

const PEER: Ep = Ep {
    ip: Ip4([198, 51, 100, 7]),
    port: 40000,
};

const NOW: Millis = Millis(5);

// Sends each byte of a datagram back by itself, drops an empty one, and gives a single byte to the IPv6 side. It wants
// memory for more bytes than a step has sends.
#[derive(Drop)]
struct Letters;

impl Endpoint for Letters {
    const FRUGAL: bool = false;

    ghost FRUGAL = { false };

    ghost ready = { λ _ _. ⊤ };

    ghost stays = { λ _ _. ⊤ };

    ghost rule = { λ _ _ _ _ _ _ _. ⊤ };

    ghost starves = { λ _ _ _ _ _. ⊤ };

    ghost ticks = { λ _ _ _ _. ⊤ };

    ghost is_due = { λ _ _ _. ⊤ };

    ghost owing = { λ _ _. 0 };

    ghost stays_so = { λ _. tt };

    ghost stays_on = { λ _ _ _ _ _. tt };

    ghost ready_later = { λ _ _ _ _ _ _. tt };

    ghost ready_again = { λ _ _ _ _ _ _ _ _ _. tt };

    ghost ready_ticked = { λ _ _ _ _ _ _. tt };

    ghost frugal = { λ _ _ _ _ _ never _. Prim.cc };

    fn on_datagram(
        &mut self,
        _now: Millis,
        side: Side,
        from: Ep,
        bytes: &[u8],
        step: &mut Step,
    ) -> Result<(), NoMemory> {
        if bytes.len() > SENDS_MAX {
            return Err(NoMemory);
        }
        step.reset(Fate::Forward);
        match bytes.len() {
            0 => step.set_fate(Fate::Malformed),
            1 => step.set_six(Span { at: 0, len: 1 }),
            _ => {
                for byte in bytes {
                    if step.count() < SENDS_MAX {
                        step.push(side, from, &[*byte]);
                    }
                }
            }
        }
        Ok(())
    }

    fn on_tick(&mut self, _now: Millis, step: &mut Step) {
        step.reset(Fate::Idle);
    }

    fn due(&self, _now: Millis) -> Option<Millis> {
        None
    }
}

// At a moment so many bells ring, one a tick, and each sends its number.
#[derive(Drop)]
struct Bells {
    at: u64,
    left: u8,
}

impl Endpoint for Bells {
    const FRUGAL: bool = true;

    ghost FRUGAL = { true };

    ghost ready = { λ _ _. ⊤ };

    ghost stays = { λ old new. new ≡ old };

    ghost rule = { λ old _ _ _ _ _ new. new ≡ old };

    ghost starves = { λ _ _ _ _ _. ⊥ };

    ghost ticks = { λ _ _ _ _. ⊤ };

    ghost is_due = { λ _ _ _. ⊤ };

    ghost owing = { λ s n. if nat_le s.at n then s.left else 0 };

    ghost stays_so = { λ _. refl };

    ghost stays_on = { λ _ _ _ first second. second ∙ first };

    ghost ready_later = { λ _ _ _ _ _ _. tt };

    ghost ready_again = { λ _ _ _ _ _ _ _ _ _. tt };

    ghost ready_ticked = { λ _ _ _ _ _ _. tt };

    ghost frugal = { λ _ _ _ _ _ _ never. never };

    fn on_datagram(
        &mut self,
        _now: Millis,
        _side: Side,
        _from: Ep,
        _bytes: &[u8],
        step: &mut Step,
    ) -> Result<(), NoMemory> {
        step.reset(Fate::Malformed);
        Ok(())
    }

    fn on_tick(&mut self, now: Millis, step: &mut Step) {
        step.reset(Fate::Idle);
        if now.0 < self.at {
            return;
        }
        if self.left > 0 {
            step.reset(Fate::Bubbles);
            step.push(Side::Primary, PEER, &[self.left]);
            self.left -= 1;
        }
    }

    fn due(&self, _now: Millis) -> Option<Millis> {
        (self.left > 0).then_some(Millis(self.at))
    }
}

fn datagram(alloc: Global, bytes: &[u8]) -> Result<MemArrival, NoMemory> {
    Ok(MemArrival::Got {
        side: Side::Secondary,
        from: PEER,
        bytes: Octets::new(alloc, bytes)?,
    })
}

// A link that gives one datagram.
fn link_of(
    alloc: Global,
    bytes: &[u8],
    recv_fails: &[u64],
    send_fails: &[u64],
) -> Result<MemLink, NoMemory> {
    let mut arrivals = Vec::new(alloc);
    arrivals.push(datagram(alloc, bytes)?)?;
    MemLink::new(alloc, arrivals, 16, recv_fails, send_fails)
}

#[test]
fn a_failed_attempt_doesnt_stop_the_later_ones(rt: HostRuntime) -> Result<(), Fail> {
    let mut link = link_of(rt.alloc(), b"abc", &[], &[1])?;
    let mut step = Step::new();
    let took = Pumped::Took {
        from: PEER,
        len: 3,
        failed: 0b010,
    };
    assert!(rt; pump(&mut Letters, &mut link, NOW, &mut step) == Ok(took));
    assert!(rt; pump(&mut Letters, &mut link, NOW, &mut step) == Ok(Pumped::Idle));
    assert!(rt; link.attempts().len() == 3);
    for (attempt, (byte, sent)) in link
        .attempts()
        .iter()
        .zip([(b'a', true), (b'b', false), (b'c', true)])
    {
        assert!(rt; attempt.bytes() == [byte].as_slice());
        assert!(rt; (attempt.side(), attempt.to()) == (Side::Secondary, PEER));
        assert!(rt; attempt.is_sent() == sent);
    }
    Ok(())
}

#[test]
fn a_fault_sends_nothing(rt: HostRuntime) -> Result<(), Fail> {
    let mut link = link_of(rt.alloc(), b"123456789", &[0], &[])?;
    let mut step = Step::new();
    for why in [PumpFault::Receive, PumpFault::NoMemory] {
        assert!(rt; pump(&mut Letters, &mut link, NOW, &mut step) == Err(why));
    }
    assert!(rt; link.attempts().len() == 0);
    Ok(())
}

#[test]
fn a_loop_ends_after_idle_turns_in_a_row(rt: HostRuntime) -> Result<(), Fail> {
    let alloc = rt.alloc();
    let mut arrivals = Vec::new(alloc);
    arrivals.push(datagram(alloc, b"ab")?)?;
    arrivals.push(MemArrival::Idle)?;
    arrivals.push(datagram(alloc, b"")?)?;
    arrivals.push(datagram(alloc, b"6")?)?;
    arrivals.push(MemArrival::Idle)?;
    arrivals.push(MemArrival::Idle)?;
    arrivals.push(datagram(alloc, b"cd")?)?;
    let mut link = MemLink::new(alloc, arrivals, 16, &[], &[0])?;
    let mut clock = TestClock::new([NOW, NOW, NOW, NOW]);
    let mut totals = Totals::NONE;
    let ended = serve_loop(&mut Letters, &mut link, &mut clock, 9, 2, &mut totals);
    assert!(rt; ended == Ok(()));
    let want = Totals {
        served: 3,
        sent: 1,
        failed: 1,
        six: 1,
        dropped: 1,
    };
    assert!(rt; totals == want);
    assert!(rt; link.attempts().len() == 2);
    let mut totals = Totals::NONE;
    let ended = serve_loop(&mut Letters, &mut link, &mut clock, 1, 2, &mut totals);
    assert!(rt; ended == Ok(()));
    assert!(rt; (totals.served, totals.sent, totals.failed) == (1, 2, 0));
    Ok(())
}

#[test]
fn all_that_is_due_is_ticked(rt: HostRuntime) -> Result<(), Fail> {
    let mut link = link_of(rt.alloc(), b"", &[], &[1])?;
    let mut step = Step::new();
    let mut bells = Bells { at: 5, left: 3 };
    let early = tick_through(&mut bells, &mut link, Millis(4), &mut step);
    assert!(rt; (early, link.attempts().len()) == (0, 0));
    let failures = tick_through(&mut bells, &mut link, NOW, &mut step);
    assert!(rt; (failures, link.attempts().len()) == (1, 3));
    assert!(rt; tick(&mut bells, &mut link, NOW, &mut step) == None);
    Ok(())
}
