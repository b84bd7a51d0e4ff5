//! Laws of every history.
ghost use Rattle.theory_ways.specs.Ways.{FlatIsChained, AskedIsChained};
ghost use Rattle.theory_ways.specs.Inwards.{EachEntersByItsWay, EachIsLetIn};
ghost use Rattle.theory_ways.specs.Neighbours.{NeighboursAreUnheard};
ghost use Rattle.theory_ways.specs.SettledAlong.{EachIsSettledBehindOne, EachSettledIsAlong};
ghost use Rattle.theory_ways.specs.RightAlong.{EachVerdictIsRightAlong};
ghost use Rattle.theory_ways.specs.Replies.{EachReplyIsLetIn};
ghost use Rattle.theory_ways.specs.Addresses.{EachAddressStaysAlong, AddressesDiffer};
ghost use Rattle.theory_ways.specs.Throughout.{HistoriesHoldAlongWays};

/// Where no NAT is behind another one the chain keeps its rules, and each chain that a text asks for does: so `lab` and
/// `nested` play no other. It is stated in `Ways.antt`, with `td_chain/ChainText.antt`.
pub fn flat_is_chained()
    ensures { FlatIsChained }
{}

/// So does each chain that a text asks for.
/// See `flat_is_chained`.
pub fn asked_is_chained()
    ensures { AskedIsChained }
{}

/// Two clients that are settled along their ways have addresses with one endpoint only where they are one client. This
/// holds at one record, whichever NATs are behind others.
/// Needs: a topology that keeps its rules.
/// Leaves open: addresses at different records.
pub fn addresses_differ()
    ensures { AddressesDiffer }
{}

/// What is let in to a client is let in at each NAT of its way, one after the other, and what each of them lets in so
/// is let in to the client. It is stated in `Inwards.antt`, the way in `Ways.antt`.
/// Needs: a chain that keeps its rules; for the second, a topology that does.
pub fn enters_by_its_way()
    ensures { EachEntersByItsWay }
{}

/// What comes in past each NAT of a client's way is let in to the client.
/// See `enters_by_its_way`.
pub fn is_let_in()
    ensures { EachIsLetIn }
{}

/// No client's host hears a client with the same outermost NAT: no packet is handed to it whose Teredo source embeds
/// that NAT's address.
/// Needs: a history of a topology that keeps its rules and a chain that does, in which no event puts a datagram onto
/// the wire from an address of a node.
pub fn neighbours_are_unheard()
    ensures { NeighboursAreUnheard }
{}

/// Where no NAT is behind another one, to be settled along the way is to be settled.
/// Needs: a history of a topology that keeps its rules.
pub fn settled_behind_one()
    ensures { EachIsSettledBehindOne }
{}

/// And a settled client is settled along its way.
/// See `settled_behind_one`.
pub fn settled_is_along()
    ensures { EachSettledIsAlong }
{}

/// The verdict of each client that nothing disturbs along its way is right; so is that of each client without the cone
/// phase whose NATs were kept open, and its address has no cone bit. It is stated in `RightAlong.antt`, what disturbs
/// in `UndisturbedAlong.antt`. `crates/worked_facts/proofs/WayFacts.antt` has histories that meet all of it, one of
/// three NATs among them, and one that is honest only for the client; one in which a carrier's NAT knew the client, and
/// the verdict is wrong; and one in which it forgets the client too soon, so that its server isn't let in.
/// Needs: a history of a topology that keeps its rules, which is honest for the client, and a chain that keeps its own.
/// Leaves open: for how long, and what others than the server get through.
pub fn verdicts_are_right_along()
    ensures { EachVerdictIsRightAlong }
{}

/// The address of a client that nothing disturbs along its way stays. Since its start nothing that it was told changed
/// it.
/// Needs: a history of a topology that keeps its rules, which is honest for the client, and a chain that keeps its own;
/// and that the client's record puts one datagram onto the wire, which leaves its way there.
pub fn addresses_stay_along()
    ensures { EachAddressStaysAlong }
{}

/// What a client that nothing disturbs along its way sends lets in, past each NAT of its way, the node that it sent to,
/// for as long as the client does nothing more; and everybody, where each NAT is cone. Where one isn't, and the client
/// asks its server in the cone phase, the server's other address is shut out by the outermost NAT that isn't.
/// Needs: a history of a topology that keeps its rules, which is honest for the client, and a chain that keeps its own;
/// and that the client's record puts one datagram onto the wire, which leaves its way there.
/// Leaves open: what is let in after the client did more; which others a NAT that isn't cone lets in.
pub fn replies_are_let_in()
    ensures { EachReplyIsLetIn }
{}

/// Right verdicts, addresses that stay and differ, and neighbours that aren't heard: so it is at each record of a
/// history.
/// Needs: a history of a topology that keeps its rules, and a chain that does; and of each what it needs above.
pub fn histories_hold_along_ways()
    ensures { HistoriesHoldAlongWays }
{}
