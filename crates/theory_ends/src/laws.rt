//! Laws of every history.
ghost use Rattle.theory_ends.specs.FirstArrival.{ArrivedIsFirst, OthersNeverArrive};
ghost use Rattle.theory_ends.specs.LastSaying.{LostIsLast};
ghost use Rattle.theory_ends.specs.LostStays.{LostStaysLost};

/// A packet that is lost stays lost until an entry that carries it is delivered again: each of these was delivered. No
/// record says anything of it till then, so its end stays the same, with the record that this names. Nothing that waits
/// or is held carries it, whoever is listed then or later, and no later entry does. The same holds of a reply, until
/// an entry is delivered that carries the reply or its packet: a native host that is given a packet twice answers it
/// twice.
/// `crates/worked_lines/proofs/LostFacts.antt` has a packet that stays lost, one whose entry is delivered again, and
/// one that is answered twice.
/// Needs: a history of a topology.
/// Leaves open: what comes of such a delivery.
pub fn lost_stays_lost()
    ensures { LostStaysLost }
{}

/// Where a packet's end, or its reply's, says that it arrived, the record of that number said so, and no earlier one
/// did.
/// Leaves open: which bytes were handed over.
pub fn arrived_is_first()
    ensures { ArrivedIsFirst }
{}

/// And where it says something else, or there is none, no record said that it arrives.
/// See `arrived_is_first`.
pub fn others_never_arrive()
    ensures { OthersNeverArrive }
{}

/// Where the end says that a packet or a reply is lost, the record of that number said something of it, and no later
/// one did.
/// Leaves open: what it said.
pub fn lost_is_last()
    ensures { LostIsLast }
{}
