//! Laws of every history of a NAT.
ghost use Rattle.std.specs.Prelude.{◌≡◌, ℕ, ◌+◌, ◌<◌, ◌≤◌, ◌↔◌, List, length, Contains};
ghost use Rattle.td_base.specs.declared.endpoint.Ep.{Ep};
ghost use Rattle.nat_kinds.specs.declared.outgoing.Outward.{Outward};
ghost use Rattle.nat_kinds.specs.declared.settings.NatSettings.{NatSettings};
ghost use Rattle.nat_kinds.specs.History.{NatEntry, kept, young, counting};
ghost use Rattle.nat_kinds.specs.Mappings.{latest, live_port};
ghost use Rattle.nat_kinds.specs.Answer.{IsAnswer, live_after, nat_answer};
ghost use Rattle.nat_kinds.specs.Entering.{lets_in};
ghost use Rattle.nat_kinds.specs.Asked.{recalled};
ghost use Rattle.nat_kinds.specs.Nat.{NatState, NatStandsFor};
ghost use Rattle.nat_kinds.specs.Laws.{IsHistory, IsPast, SameKey, WasAsked};
ghost use Rattle.nat_kinds.specs.Numbers.{NatNumbers};

use crate::kind::NatKind;
use crate::limits::{FIRST_PORT, MAPPINGS_MAX};

/// The answer is the port that the key holds, else the lowest free one, else a refusal. A mapping is live exactly while
/// the latest datagram of its key counts, and while a datagram counts its key holds its port; no two keys hold one
/// port; at most 4,096 mappings live.
/// Needs: the history is one of a NAT; for the first, none.
pub fn answer_is_lowest_free()
    ensures { (s : NatSettings) (h : List NatEntry) (n : ℕ) (inside dst : Ep) →
        IsAnswer s (live_after s h n) inside dst (nat_answer s h n inside dst) }
{}

/// A mapping is live exactly while the latest datagram of its key counts.
/// See `answer_is_lowest_free`.
pub fn latest_datagram_decides()
    ensures { (s : NatSettings) (h : List NatEntry) → IsHistory s h → (n : ℕ) →
        live_after s h n ≡ young s.idle n (latest s.kind (kept h)) }
{}

/// While a datagram counts, its key holds its port.
/// See `answer_is_lowest_free`.
pub fn counting_datagram_holds_its_port()
    ensures { (s : NatSettings) (h : List NatEntry) (n : ℕ) → IsPast s h n →
        (e : Outward) → Contains (counting s.idle n h) e →
        live_port s.kind e.inside e.dst (live_after s h n) ≡ Some e.port }
{}

/// No two keys hold the same port.
/// See `answer_is_lowest_free`.
pub fn port_has_one_key()
    ensures { (s : NatSettings) (h : List NatEntry) (n : ℕ) → IsPast s h n →
        (inside dst inside' dst' : Ep) (port : ℕ) →
        live_port s.kind inside dst (live_after s h n) ≡ Some port →
        live_port s.kind inside' dst' (live_after s h n) ≡ Some port →
        SameKey s.kind inside dst inside' dst' }
{}

/// No more than `MAPPINGS_MAX` mappings live, and they hold ports from `FIRST_PORT` on.
pub fn live_mappings_are_few()
    /// See `answer_is_lowest_free`.
    ensures few { (s : NatSettings) (h : List NatEntry) (n : ℕ) → IsPast s h n →
        length (live_after s h n) ≤ MAPPINGS_MAX }
    /// See `answer_is_lowest_free`.
    ensures ports { (s : NatSettings) (h : List NatEntry) (n : ℕ) → IsPast s h n →
        (inside dst : Ep) (port : ℕ) →
        live_port s.kind inside dst (live_after s h n) ≡ Some port →
        (FIRST_PORT ≤ port) × (port < FIRST_PORT + MAPPINGS_MAX) }
{}

/// Of whom the inside endpoints asked no more is kept than they asked in the last two idle times, each once. A
/// restricted and a port restricted NAT keep a destination with the moment at which it was asked last, and no moment
/// that is more than two idle times before the latest call that may have changed the NAT; a cone and a symmetric NAT
/// keep nothing of it.
/// Needs: the NAT stands for the history.
/// Leaves open: how many places a table takes that once had more in it.
pub fn asked_are_few()
    ensures { (nat : NatState) (h : List NatEntry) → NatStandsFor nat h →
        length nat.asked ≤ length (recalled nat.settings.kind nat.settings.idle nat.moment (kept h)) }
{}

/// A datagram is let in exactly where its source was asked from that port, and reaches the endpoint that owns the port.
/// A reply to a datagram that counts is let in, whatever the kind; a cone lets all in.
/// Needs: the history is one of a NAT.
pub fn let_in_where_asked()
    ensures { (s : NatSettings) (h : List NatEntry) (n : ℕ) → IsPast s h n →
        (src : Ep) (port : ℕ) (inside : Ep) →
        (lets_in s h n src port ≡ Some inside) ↔ WasAsked s h n src port inside }
{}

/// A datagram that is let in reaches the inside endpoint that owns the port.
/// See `let_in_where_asked`.
pub fn owner_is_reached()
    ensures { (s : NatSettings) (h : List NatEntry) (n : ℕ) → IsPast s h n →
        (src : Ep) (port : ℕ) (inside : Ep) →
        lets_in s h n src port ≡ Some inside →
        (dst : Ep) × (live_port s.kind inside dst (live_after s h n) ≡ Some port) }
{}

/// While an outward datagram counts, a reply to it is let in, whatever the kind.
/// See `let_in_where_asked`.
pub fn reply_is_let_in()
    ensures { (s : NatSettings) (h : List NatEntry) (n : ℕ) → IsPast s h n →
        (e : Outward) → Contains (counting s.idle n h) e →
        lets_in s h n e.dst e.port ≡ Some e.inside }
{}

/// A cone NAT lets every source in at a live port.
/// See `let_in_where_asked`.
pub fn cone_lets_all_in()
    ensures { (s : NatSettings) (h : List NatEntry) (n : ℕ) → IsPast s h n → s.kind ≡ NatKind.Cone →
        (inside dst : Ep) (port : ℕ) →
        live_port s.kind inside dst (live_after s h n) ≡ Some port →
        (src : Ep) → lets_in s h n src port ≡ Some inside }
{}

/// The limits of a NAT are those of `docs/DEFINITIONS.md`.
pub fn nat_numbers()
    ensures { NatNumbers }
{}
