//! Who reaches whom of two clients.
ghost use Rattle.std.specs.Prelude.{◌≡◌, ◌==◌, ◌≤◌, ◌||◌, ◌&&◌, not, List};
ghost use Rattle.client_core.specs.Client.{callable_from};
ghost use Rattle.history.specs.Full.{Full};
ghost use Rattle.legal.specs.Lab.{Draws};
ghost use Rattle.theory_origins.specs.Sources.{outermost};
ghost use Rattle.theory_reaching.specs.Conditions.{is_settled};
ghost use Rattle.theory_reaching.specs.BetweenClients.{two_clients, between_clients_row};
ghost use Rattle.world.specs.World.{StandsFor, lab_in};
ghost use Rattle.reach_query.specs.Hosts.{IsClientHere};
ghost use Rattle.reach_query.specs.Asked.{AreAlikeOfTwo};

use crate::hosts::{ClientHere, is_let_in, server_endpoint};
use crate::known;
use crate::speaking::{bubbles_stray, speaks_to};
use teredo_addr::{embedded, has_cone};
use theory_reaching::{Reach, TwoClients};
use world::World;

/// Whether both clients are settled along their ways.
fn are_settled(world: &World<'_>, a: ClientHere<'_>, b: ClientHere<'_>) -> bool
    ensures { (d : Draws) (H : List Full) → StandsFor d world.now H → IsClientHere (lab_in d world.now) H a.entry
        → IsClientHere (lab_in d world.now) H b.entry
        → result ≡ (is_settled (lab_in d world.now) H a.entry.number a.entry.row && is_settled (lab_in d world.now) H b.entry.number b.entry.row) }
{
    if !a.is_settled(world) {
        return false;
    }
    b.is_settled(world)
}

/// Whether the outermost NATs of two clients are one.
fn have_one_nat(world: &World<'_>, a: ClientHere<'_>, b: ClientHere<'_>) -> bool
    ensures { (d : Draws) (H : List Full) → StandsFor d world.now H → IsClientHere (lab_in d world.now) H a.entry
        → IsClientHere (lab_in d world.now) H b.entry
        → result ≡ (outermost (lab_in d world.now) a.entry.row == outermost (lab_in d world.now) b.entry.row) }
{
    let nats = world.nats();
    let outer = nats.outermost(a.row.nat);
    let other_outer = nats.outermost(b.row.nat);
    outer == other_outer
}

/// Whether a receiver is barred for a sender whose bubbles don't come straight to it: a cone one sends none there, and those of another one
/// may not be let in.
fn is_barred_there(barred: bool, from_cone: bool, let_in: bool) -> bool
    ensures { result ≡ (barred && (from_cone || not let_in)) }
{
    if !barred {
        return false;
    }
    if from_cone {
        return true;
    }
    !let_in
}

/// What the table of words asks of two clients, as far as it looks.
fn two_clients(world: &World<'_>, a: ClientHere<'_>, b: ClientHere<'_>) -> TwoClients
    requires sender { callable_from a.client.now ≤ world.now.moment }
    requires receiver { callable_from b.client.now ≤ world.now.moment }
    ensures { (d : Draws) (H : List Full) → StandsFor d world.now H → IsClientHere (lab_in d world.now) H a.entry
        → IsClientHere (lab_in d world.now) H b.entry
        → AreAlikeOfTwo result (two_clients (lab_in d world.now) H a.entry.number b.entry.number a.entry.row b.entry.row) }
{
    let now = world.moment();
    let own = a.address();
    let other = b.address();
    let on = a.is_on();
    let there = b.is_on();
    let same_address = own == other;
    let speaks = speaks_to(world, a, own, embedded(other));
    let asked = server_endpoint(world.topology(), b.row.server);
    let bubbles_astray = bubbles_stray(world, a, own, embedded(other), asked);
    let settled = are_settled(world, a, b);
    let one_nat = have_one_nat(world, a, b);
    let there_known = a.client.peer(now, other);
    let back_known = b.client.peer(now, own);
    let heard = b.client.has_room(now, own);
    let fresh = known::is_fresh(there_known, now);
    let let_in = is_let_in(world, fresh, embedded(own), embedded(other), b.number);
    let barred = known::is_barred(there_known, now);
    let room = a.client.has_room(now, other);
    let from_cone = has_cone(own);
    let to_cone = has_cone(other);
    let barred_back = known::is_barred(back_known, now);
    let let_in_back = is_let_in(world, barred_back, embedded(own), embedded(other), b.number);
    let barred_there = is_barred_there(barred_back, from_cone, let_in_back);
    let waiting = known::waiting(back_known);
    TwoClients {
        on,
        there,
        same_address,
        speaks,
        bubbles_astray,
        settled,
        one_nat,
        heard,
        fresh,
        let_in,
        to_cone,
        barred,
        room,
        barred_there,
        waiting,
        peer_barred: barred_back,
        from_cone,
    }
}

/// The word on packets from a client to another one.
pub fn word_between(world: &World<'_>, a: ClientHere<'_>, b: ClientHere<'_>) -> Reach
    requires sender { callable_from a.client.now ≤ world.now.moment }
    requires receiver { callable_from b.client.now ≤ world.now.moment }
    ensures { (d : Draws) (H : List Full) → StandsFor d world.now H → IsClientHere (lab_in d world.now) H a.entry
        → IsClientHere (lab_in d world.now) H b.entry
        → result ≡ between_clients_row (two_clients (lab_in d world.now) H a.entry.number b.entry.number a.entry.row b.entry.row) }
{
    if !a.is_on() {
        return Reach::Off;
    }
    if !b.is_on() {
        return Reach::Away;
    }
    two_clients(world, a, b).word()
}
