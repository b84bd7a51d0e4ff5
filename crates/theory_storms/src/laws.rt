//! Laws of every history.
ghost use Rattle.theory_storms.specs.Loads.{EachIsWeighed, EachServedIsWeighed, BurdenIsBounded, FewWait, DeliveryExchanges};
ghost use Rattle.theory_storms.specs.Deliveries.{EachLightens, EachStormEnds, SettleDeliversNew, EachSettlingEnds};
ghost use Rattle.theory_storms.specs.Falls.{EachFalls};
ghost use Rattle.theory_storms.specs.Throughout.{HistoriesHaveNoStorm, ScenariosHaveNoStorm};
ghost use Rattle.theory_storms.specs.Follow.{TrustLasts, EachEases, FewFollow, NoMoreThanBefore};
ghost use Rattle.theory_storms.specs.Follow.{NineForEach, NineSettle, FollowFromOne, NineFollow, FourFollow};
ghost use Rattle.theory_storms.specs.ByKind.{FewByKind, SettleByKind};
ghost use Rattle.theory_storms.specs.NineThroughout.{HistoriesHaveNine};

/// Each entry weighs 1 to 12, and a datagram that comes to a server 9 at most: itself, and what can follow from what
/// the server makes of it. It is stated in `Loads.antt`, with `weights/Weights.antt`.
pub fn each_is_weighed()
    ensures { EachIsWeighed }
{}

/// A datagram that comes to a server weighs 9 at most.
/// See `each_is_weighed`.
pub fn served_is_weighed()
    ensures { EachServedIsWeighed }
{}

/// What can follow is at most twelve times as much as there are entries and packets that wait.
/// See `deliveries_end`.
pub fn burden_is_bounded()
    ensures { BurdenIsBounded }
{}

/// No more than 139,264 packets wait at once: eight for each of the 256 peers of 64 clients and 4 relays. This holds
/// whatever was sent, and whichever NATs are behind others.
/// Needs: a history of a topology that keeps its rules.
/// Leaves open: packets that are held.
pub fn few_wait()
    ensures { FewWait }
{}

/// A delivery takes its entry out of what is undelivered, and what the record made comes in, whatever these weigh.
/// Needs: a history of a topology.
pub fn delivery_exchanges()
    ensures { DeliveryExchanges }
{}

/// A client that a relay trusts stays trusted through each delivery of an entry that wasn't delivered before. This
/// holds whatever strangers sent, to whomever the entry comes, and whichever NATs are behind others.
/// Needs: a history of a topology that keeps its rules. Whom a relay trusts is read off its journal at the moment of
/// the latest record: `relay_trusts` in `weights/Trust.antt`.
/// Leaves open: that trust ends by time, or by a restart.
pub fn trust_lasts()
    ensures { TrustLasts }
{}

/// A delivery of an entry that wasn't delivered before makes less what can follow, where an eased entry weighs less by
/// any number of 0 to 3, and so does a packet from a host that waits at the host's relay. Eased is a packet for a relay
/// from its own host, or an echo reply for a client that the relay trusts; a datagram to a relay from a Teredo address;
/// and, where a host's relay trusts the client, an echo request of the client to the host, on either side of a server,
/// and a packet of the host for the client: `is_eased`, `weight_with` and `burden_with` in `weights/Eased.antt`.
/// Needs: a history of a topology that keeps its rules.
pub fn each_eases()
    ensures { EachEases }
{}

/// - A delivery of an entry that wasn't delivered before makes what can follow less: what it brings, entries and
///   packets that wait, weighs less than the entry and the packets that it releases. This holds whatever strangers do,
///   whichever NATs are behind others, and to whomever it comes, or to nobody.
///   Needs: a history of a topology that keeps its rules; no relay is at a server's endpoint by these. All that can
///   follow is `burden` in `weights/Burden.antt`.
///   Leaves open: packets that are held, which count nothing, since they are sent nowhere.
/// - See `each_eases`.
pub fn each_lightens()
    ensures { EachLightens }
{}

/// What can follow is never more than the weights alone say.
/// See `few_follow`.
pub fn no_more_than_before()
    ensures { NoMoreThanBefore }
{}

/// Deliveries alone end: there are at most twelve for each undelivered entry and each packet that waits. It is stated
/// in `Deliveries.antt`; the bounds in `Loads.antt`.
/// Needs: a history of a topology that keeps its rules; no relay is at a server's endpoint by these. All that can
/// follow is `burden` in `weights/Burden.antt`, and that each record delivers an entry that none before it did.
pub fn deliveries_end()
    ensures { EachStormEnds }
{}

/// Each record of a `settle` that goes on delivers an entry for the first time.
/// See `settling_ends`.
pub fn settle_delivers_new()
    ensures { SettleDeliversNew }
{}

/// A `settle` ends: it goes on after at most twelve records for each undelivered entry and each packet that waits.
/// Needs: a history of a topology that keeps its rules.
/// Leaves open: that a run ends earlier where the wire is full or an output fails.
pub fn settling_ends()
    ensures { EachSettlingEnds }
{}

/// After each record that has further ones of its event, less is left of it, and never more than 2^45: so each event
/// has an end. What is left of a `settle` is what can follow from all that is undelivered or waits; of an advance what
/// `legal` says. It is stated in `Falls.antt`, with `weights/Left.antt`.
/// Needs: a history of a topology that keeps its rules, of at most 65,536 entries.
pub fn falls()
    ensures { EachFalls }
{}

/// The bound of twelve holds from each record of a history on, so from each that is played of a scenario.
/// Needs: for the second, events that the nodes can be asked for.
pub fn histories_have_no_storm()
    ensures { HistoriesHaveNoStorm }
{}

/// Nor has the history of any scenario, as far as it was played.
/// See `histories_have_no_storm`.
pub fn scenarios_have_no_storm()
    ensures { ScenariosHaveNoStorm }
{}

/// No more deliveries follow than all that is undelivered or waits weighs, eased by 3, which is no more than the
/// weights alone say.
/// Needs: for the first, the same, and that each record delivers an entry that none before it did.
pub fn few_follow()
    ensures { FewFollow }
{}

/// By what there is: at most nine follow for each entry that wasn't delivered, eight for each packet that waits at a
/// client, and five for each at a relay. The second is of the records of a `settle` after which it goes on.
/// Needs: for the first, what `few_follow` needs; for the second, a history of a topology that keeps its rules.
/// Whatever was sent before, packets for relays are echo replies or come from the relay's own hosts, and so do those
/// that wait there.
/// Leaves open: packets that are held.
pub fn few_by_kind()
    ensures { FewByKind }
{}

/// At most nine deliveries follow for each entry that wasn't delivered and each packet that waits. The second is of a
/// `settle`.
/// Needs: for the first, what `few_follow` needs; for the second, a history of a topology that keeps its rules.
/// Whatever was sent before, packets for relays are echo replies or come from the relay's own hosts, and so do those
/// that wait there.
pub fn nine_for_each()
    ensures { NineForEach }
{}

/// A `settle` goes on after at most as many records.
/// See `nine_for_each`.
pub fn nine_settle()
    ensures { NineSettle }
{}

/// Nor does it after more than so many by kind.
/// See `few_by_kind`.
pub fn settle_by_kind()
    ensures { SettleByKind }
{}

/// The bound of nine holds from each record of a history on, so from each that is played of a scenario.
/// Needs: a history of a topology that keeps its rules.
pub fn histories_have_nine()
    ensures { HistoriesHaveNine }
{}

/// Where a single entry is undelivered, and no packet waits, no more new deliveries follow than the entry weighs, eased
/// by 3. This holds whatever the entry is, whoever sent it, and whatever was sent before.
/// Needs: what `few_follow` needs.
pub fn follow_from_one()
    ensures { FollowFromOne }
{}

/// From a packet for a relay at most nine deliveries follow, its own counted, and from a datagram to a relay's endpoint
/// at most four.
/// Needs: what `few_follow` needs.
pub fn nine_follow()
    ensures { NineFollow }
{}

/// From a datagram to a relay alone at most four, whoever sent it.
/// See `nine_follow`.
pub fn four_follow()
    ensures { FourFollow }
{}
