//! The answers of a NAT, over its table, its index and what was asked.
ghost use Rattle.std.specs.Prelude.{◌≡◌, ℕ, ◌<◌, ◌≤◌, true, List, IfOk, IfErr, OnOk, OnErr};
ghost use Rattle.std.specs.HashMap.{spare};
ghost use Rattle.nat_kinds.specs.Mappings.{latest, live_port};
ghost use Rattle.nat_kinds.specs.Answer.{port_for, answer_of, GivesAnswer};
ghost use Rattle.nat_kinds.specs.Sound.{Sound};
ghost use Rattle.nat_kinds.specs.Places.{place_at, place_with, if_young, unless_of, unless_in, HasRoom, IsIndexed, IsNext, IsPutIn, Shows};
ghost use Rattle.nat_kinds.specs.Front.{HasKeyOnlyAt, IsFront};
ghost use Rattle.nat_kinds.specs.Asked.{asked_at, asked_with, inside_by, keeps_asked, IsNoted, IsOnce};
ghost use Rattle.nat_kinds.specs.declared.outgoing.Outward.{Outward};
ghost use Rattle.nat_kinds.specs.declared.way.Way.{Way};

use crate::asked::{self, Asked};
use crate::departure::Departure;
use crate::front::Front;
use crate::incoming::Incoming;
use crate::index::{self, Index};
use crate::kind::NatKind;
use crate::outgoing::Outward;
use crate::places;
use crate::refusal::NatRefusal;
use crate::settings::NatSettings;
use td_base::Ep;

/// The port of a datagram: the one that its key holds, else the lowest free one.
fn port_for(
    places: &[Option<Outward>],
    index: &Index,
    front: &mut Front,
    settings: &NatSettings,
    departure: Departure,
) -> Result<u16, NatRefusal>
    requires indexed { IsIndexed settings.now.kind places.now index.now.entries }
    requires front { IsFront places.now front.old }
    requires past { front.old.since.0 ≤ departure.moment.0 }
    ensures value { (outs : List Outward) → Sound settings.now.kind outs → Shows settings.now.idle departure.moment.0 places.now outs →
        result ≡ port_for (live_port settings.now.kind departure.inside departure.dst (latest settings.now.kind outs)) (latest settings.now.kind outs) }
    ensures next { IfOk result (IsNext places.now) }
    ensures front { IsFront places.now front.new }
    ensures past { front.new.since.0 ≤ departure.moment.0 }
    ensures key { IfOk result (HasKeyOnlyAt settings.now.kind departure.inside departure.dst places.now front.new) }
{
    let Departure {
        moment,
        inside,
        dst,
    } = departure;
    if let Some(port) = index::held_port(places, index, settings, moment, inside, dst) {
        return Ok(port);
    }
    places::lowest_free(places, front, settings.idle, moment).ok_or(NatRefusal::Full)
}

/// The port from which a datagram leaves, or why it isn't sent.
pub fn answer(
    places: &[Option<Outward>],
    index: &Index,
    front: &mut Front,
    settings: &NatSettings,
    departure: Departure,
) -> Result<u16, NatRefusal>
    requires indexed { IsIndexed settings.now.kind places.now index.now.entries }
    requires front { IsFront places.now front.old }
    requires past { front.old.since.0 ≤ departure.moment.0 }
    ensures value { (outs : List Outward) → Sound settings.now.kind outs → Shows settings.now.idle departure.moment.0 places.now outs →
        result ≡ answer_of settings.now (latest settings.now.kind outs) departure.inside departure.dst }
    ensures next { IfOk result (IsNext places.now) }
    ensures front { IsFront places.now front.new }
    ensures past { front.new.since.0 ≤ departure.moment.0 }
    ensures key { IfOk result (HasKeyOnlyAt settings.now.kind departure.inside departure.dst places.now front.new) }
{
    if departure.dst.ip == settings.external {
        return Err(NatRefusal::Hairpin);
    }
    port_for(places, index, front, settings, departure)
}

/// Takes all the memory that a datagram wants, and changes nothing that is seen.
fn room(
    places: &mut Vec<Option<Outward>>,
    index: &mut Index,
    asked: &mut Asked,
    kind: NatKind,
    sent: &Outward,
) -> Result<(), NatRefusal>
    requires indexed { IsIndexed kind places.old.items index.old.entries }
    requires next { IsNext places.old.items sent.now.port }
    ensures indexed { IsIndexed kind places.new.items index.new.entries }
    ensures same { (p : ℕ) → place_at places.new.items p ≡ place_at places.old.items p }
    ensures same_asked { (way : Way) → asked_at asked.new.entries way ≡ asked_at asked.old.entries way }
    ensures once { IsOnce asked.old.entries → IsOnce asked.new.entries }
    ensures ok { OnOk result (HasRoom kind places.new.items (spare index.new) sent.now.port sent.now.inside sent.now.dst) }
    ensures ok_asked { OnOk result (keeps_asked kind ≡ true → 0 < spare asked.new) }
    ensures only { IfErr result (λ refusal. refusal ≡ NatRefusal.NoMemory) }
{
    if index::room(places, index, kind, sent.port, sent.inside, sent.dst).is_err() {
        return Err(NatRefusal::NoMemory);
    }
    if asked::room(asked, kind).is_err() {
        return Err(NatRefusal::NoMemory);
    }
    Ok(())
}

/// Sends a datagram: it gets a port, all its memory is taken, and then it is kept.
pub fn send(
    places: &mut Vec<Option<Outward>>,
    index: &mut Index,
    front: &mut Front,
    asked: &mut Asked,
    settings: &NatSettings,
    departure: Departure,
) -> Result<Ep, NatRefusal>
    requires indexed { IsIndexed settings.now.kind places.old.items index.old.entries }
    requires front { IsFront places.old.items front.old }
    requires past { front.old.since.0 ≤ departure.moment.0 }
    ensures front { IsFront places.new.items front.new }
    ensures past { front.new.since.0 ≤ departure.moment.0 }
    ensures indexed { IsIndexed settings.now.kind places.new.items index.new.entries }
    ensures answer { (outs : List Outward) → Sound settings.now.kind outs → Shows settings.now.idle departure.moment.0 places.old.items outs →
        GivesAnswer settings.now (answer_of settings.now (latest settings.now.kind outs) departure.inside departure.dst) result }
    ensures put { IfOk result (λ ep. IsPutIn settings.now.kind places.old.items places.new.items
        (record { moment = departure.moment; inside = departure.inside; dst = departure.dst; port = ep.port })) }
    ensures noted { IfOk result (λ ep. IsNoted settings.now.kind asked.old.entries asked.new.entries
        (record { moment = departure.moment; inside = departure.inside; dst = departure.dst; port = ep.port })) }
    ensures same { OnErr result ((p : ℕ) → place_at places.new.items p ≡ place_at places.old.items p) }
    ensures same_asked { OnErr result ((way : Way) → asked_at asked.new.entries way ≡ asked_at asked.old.entries way) }
    ensures once { IsOnce asked.old.entries → IsOnce asked.new.entries }
{
    let Departure {
        moment,
        inside,
        dst,
    } = departure;
    let port = answer(places, index, front, settings, departure)?;
    let sent = Outward {
        moment,
        inside,
        dst,
        port,
    };
    room(places, index, asked, settings.kind, &sent)?;
    index::put(places, index, settings.kind, sent);
    asked::note(asked, settings.kind, sent);
    Ok(Ep {
        ip: settings.external,
        port,
    })
}

/// Takes out the datagrams of an inside endpoint, their keys and what they asked.
pub fn forget(
    places: &mut Vec<Option<Outward>>,
    index: &mut Index,
    front: &mut Front,
    asked: &mut Asked,
    settings: &NatSettings,
    inside: Ep,
)
    requires indexed { IsIndexed settings.now.kind places.old.items index.old.entries }
    ensures front { IsFront places.new.items front.new }
    ensures since { front.new.since ≡ front.old.since }
    ensures indexed { IsIndexed settings.now.kind places.new.items index.new.entries }
    ensures forgets { (p : ℕ) → place_at places.new.items p ≡ unless_of inside (place_at places.old.items p) }
    ensures asked { (way : Way) → asked_at asked.new.entries way ≡ unless_in inside way (asked_at asked.old.entries way) }
    ensures once { IsOnce asked.new.entries }
{
    places::forget(places, inside);
    front.clear();
    index::forget_keys(index, inside);
    asked::forget_asked(asked, inside);
}

/// The inside endpoint that a datagram is let in to.
pub fn inside_at(
    places: &[Option<Outward>],
    asked: &Asked,
    settings: &NatSettings,
    incoming: Incoming,
) -> Option<Ep>
    ensures value { result
        ≡ inside_by settings.now.kind settings.now.idle incoming.moment.0 asked.now.entries incoming.src
        (if_young settings.now.idle incoming.moment.0 (place_at places.now incoming.port)) }
{
    let Some(mapping) = places::at(places, incoming.port) else {
        return None;
    };
    if !mapping.is_young(settings.idle, incoming.moment) {
        return None;
    }
    if !asked::passes(asked, settings, incoming, &mapping) {
        return None;
    }
    Some(mapping.inside)
}

/// The latest datagram of a port, had one more been sent.
fn at_with(places: &[Option<Outward>], sent: &Outward, port: u16) -> Option<Outward>
    ensures { result ≡ place_with places.now sent.now port }
{
    if port == sent.port {
        return Some(*sent);
    }
    places::at(places, port)
}

/// The inside endpoint that a datagram would be let in to, had another one been sent.
pub fn inside_with(
    places: &[Option<Outward>],
    asked: &Asked,
    settings: &NatSettings,
    incoming: Incoming,
    sent: &Outward,
) -> Option<Ep>
    ensures value { result
        ≡ inside_by settings.now.kind settings.now.idle incoming.moment.0 (asked_with settings.now.kind sent.now asked.now.entries) incoming.src
        (if_young settings.now.idle incoming.moment.0 (place_with places.now sent.now incoming.port)) }
{
    let Some(mapping) = at_with(places, sent, incoming.port) else {
        return None;
    };
    if !mapping.is_young(settings.idle, incoming.moment) {
        return None;
    }
    if !asked::passes_with(asked, settings, incoming, &mapping, sent) {
        return None;
    }
    Some(mapping.inside)
}
