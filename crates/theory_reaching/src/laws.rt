//! Laws of the words: which keep what they promise, in every history.
ghost use Rattle.theory_reaching.specs.Kept.{WordsAreKept};
ghost use Rattle.theory_reaching.specs.Waiting.{ClientKeptBack};
ghost use Rattle.theory_reaching.specs.MovedStraight.{MovedBetweenClients, MovedToNatives, GoneElsewhere, MovedTests, MovedBubbles};
ghost use Rattle.theory_reaching.specs.Promises.{KeepsItsPromise, KeepsBetweenClients, KeepsFromNatives, KeepsToNatives};
ghost use Rattle.theory_reaching.specs.declared.word.Reach.TheVariants.{OneAddress, Moved, Full, Stale, Barred, Within1, Within2, Within4, Within5, Within6, Within7, Within8, Within9, Within10, Within11, Within12, Within13};

/// Where it is `barred` between two clients, no fresh schedule brings the packet: the sender sends nothing; or the
/// receiver, which may not answer yet, gets its bubbles through its server alone.
pub fn barred_client_is_kept()
    ensures { KeepsBetweenClients Barred }
{}

/// Where it is `within 2`, the second delivery of a fresh schedule hands the packet to the client's host, or brings it
/// to the native host. The first delivery is the relay's.
/// Leaves open: that anything is delivered.
pub fn within_two_is_kept()
    ensures { KeepsItsPromise Within2 }
{}

/// Where it is `stale` of a native host on a client, nothing brings the packet: the client's NATs let in in no fresh
/// schedule what the relay sends on; or the client holds the host for fresh at another endpoint, and drops what comes
/// from the relay.
pub fn stale_from_native_is_kept()
    ensures { KeepsFromNatives Stale }
{}

/// Where it is `stale` of a client on a native host, nothing brings a packet that isn't the very test that its own
/// record drew: the relay forgot the client, or the answer to its test isn't let in. One that is comes by the second
/// delivery. It is so in the example `own_test`.
pub fn stale_to_native_is_kept()
    ensures { KeepsToNatives Stale }
{}

/// Where it is `barred` of a client on a native host, nothing brings a packet that isn't the very test that its own
/// record drew: the client sends nothing, or its test draws no reply. One that is comes by the second delivery.
pub fn barred_to_native_is_kept()
    ensures { KeepsToNatives Barred }
{}

/// Where it is `barred` of a native host on a client, nothing brings the packet: the client may not test the host and
/// keeps the packet for itself or drops it, or it stays at the relay. It rests on this: where an event is over, a relay
/// is barred for each client for which packets wait at it.
pub fn barred_from_native_is_kept()
    ensures { KeepsFromNatives Barred }
{}

/// Where it is `full` of a native host on a client, nothing brings the packet: the client keeps it for itself or drops
/// it, or it stays at the relay. If only the four packets that the client holds of the host make it `full`, the client
/// tests the host anew, and hands over those that came from the host's relay. A packet with the bytes of one of these
/// comes by the sixth delivery, or by the ninth where the relay must ask for the client; it is so in the example
/// `held_packet`. No other one does.
pub fn full_from_native_is_kept()
    ensures { KeepsFromNatives Full }
{}

/// Where it is `full` of a client on a native host, nothing brings a packet that isn't the very test that its own
/// record drew: the client drops it, or the reply to its test doesn't come to the client. One that is comes by the
/// second delivery.
pub fn full_to_native_is_kept()
    ensures { KeepsToNatives Full }
{}

/// Where it is `within 1`, the first delivery of a fresh schedule hands the packet to the receiver's host. More
/// deliveries may follow, of packets that the receiver kept for the sender.
/// Leaves open: that anything is delivered.
pub fn within_one_is_kept()
    ensures { KeepsItsPromise Within1 }
{}

/// Where it is `stale` between two clients, the packet goes to where the receiver was heard, its NATs let it in in no
/// fresh schedule, and nothing brings it.
pub fn stale_client_is_kept()
    ensures { KeepsBetweenClients Stale }
{}

/// Where it is `full` between two clients, nothing brings the packet: the receiver answers no bubble and hands nothing
/// over, or the sender drops it. The table says which of the two has no room.
pub fn full_client_is_kept()
    ensures { KeepsBetweenClients Full }
{}

/// Where it is `within 4` or `within 5`, a complete fresh schedule hands the packet to the receiver's host within so
/// many deliveries; so does one that has so many. The second half needs a wire of at most 65,536 entries: there an
/// event can name each.
/// Leaves open: that anything is delivered.
pub fn within_four_is_kept()
    ensures { KeepsItsPromise Within4 }
{}

/// And by the fifth where it hasn't.
/// See `within_four_is_kept`.
pub fn within_five_is_kept()
    ensures { KeepsItsPromise Within5 }
{}

/// Where it is `within 6` or `within 9`, a complete fresh schedule hands the packet to the client's host, or brings it
/// to the native host, by that delivery; so does one that has so many. The client's host is handed it late, or at once
/// where the client trusts the native host at the relay. More deliveries may follow, of packets that the client kept
/// for the host, or of an answer.
/// Leaves open: that anything is delivered.
pub fn within_six_is_kept()
    ensures { KeepsItsPromise Within6 }
{}

/// And by the ninth where it must.
/// See `within_six_is_kept`.
pub fn within_nine_is_kept()
    ensures { KeepsItsPromise Within9 }
{}

/// Where it is `within 7` or more between two clients, so that the receiver keeps two packets or more for the sender, a
/// complete fresh schedule hands the packet to the receiver's host within so many deliveries: five, and one more for
/// each packet that is kept; so does one that has so many. `within 6` and `within 9` are said of them too. It is so in
/// whatever order the sender's two bubbles come: the receiver, which is barred for it, answers none through its server
/// before it was let in the straight one; there it lets go what it kept, and the first of it brings the packet.
/// Leaves open: that anything is delivered.
pub fn past_waiting_is_kept()
    ensures { KeepsItsPromise Within7 × KeepsItsPromise Within8 × KeepsItsPromise Within10 × KeepsItsPromise Within11
        × KeepsItsPromise Within12 × KeepsItsPromise Within13 }
{}

/// Where it is `moved`, no fresh schedule brings the packet, of two clients or to a native host, be it a test or not:
/// it goes at once, or draws a test, and its client doesn't speak to where that goes; or it draws bubbles, which leave
/// from elsewhere than the client's address says. Nobody has to be settled. It speaks of the next packet alone: the
/// client's next refresh may give it another address.
pub fn moved_is_kept()
    ensures { KeepsBetweenClients Moved × KeepsToNatives Moved }
{}

/// Where it is `self`, both clients have one address: the sender drops the packet, and nothing brings it.
pub fn self_is_kept()
    ensures { KeepsBetweenClients OneAddress }
{}

/// A packet that goes at once to where its client doesn't speak to, is brought by no fresh schedule: it leaves from
/// elsewhere than its source says, or is refused by a NAT, and whoever gets it drops it. So it is between clients,
/// where the receiver is fresh or has the cone bit, and to a native host that is trusted at its relay; and of a packet
/// for a native host that is trusted where neither a server nor a relay answers, or that isn't fresh, where the client
/// doesn't speak to its own server, to which the test goes. Nor does a schedule bring one that draws bubbles, where
/// these leave from elsewhere: no NAT of the client's way is symmetric, its NATs let out what it sends to the receiver,
/// from another endpoint, and it doesn't speak to the receiver's server. It is stated in `MovedStraight.antt`, what a
/// client speaks to in `Speaks.antt`. The word `moved` rests on it.
/// Needs: a history of a topology that keeps its rules; nobody has to be settled.
pub fn moved_straight_is_kept()
    ensures { MovedBetweenClients × MovedToNatives × GoneElsewhere × MovedTests × MovedBubbles }
{}

/// Where an event is over, a client is barred for each peer for which packets wait at it: no tick of it is late.
pub fn client_kept_back()
    ensures { ClientKeptBack }
{}

/// Each word keeps its promise, after each history, on each pair of its hosts, of every packet; and what is said of
/// `off`, `away` and a barred sender holds too. `lost` and `known` promise nothing. It is stated in `Kept.antt`, with
/// the promises in `Promises.antt`.
/// Needs: a history of a topology that keeps its rules, and a chain that does.
pub fn words_are_kept()
    ensures { WordsAreKept }
{}
