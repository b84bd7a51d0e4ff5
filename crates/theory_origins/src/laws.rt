//! Laws of every history.
ghost use Rattle.theory_origins.specs.Sources.{EachHasOwnSource, EachGoesElsewhere};
ghost use Rattle.theory_origins.specs.Throughout.{HonestIsForEach};
ghost use Rattle.theory_origins.specs.Voices.{EachServerHasOwnVoice};
ghost use Rattle.theory_origins.specs.Senders.{EachEntryTellsWhereTo, EachComesFromClient};
ghost use Rattle.theory_origins.specs.Handed.{EachIsBrought, EachLateHandedIsForeign};
ghost use Rattle.theory_origins.specs.Origin.{EachHasOrigin};
ghost use Rattle.theory_origins.specs.Outside.{EachIsBroughtBy};
ghost use Rattle.theory_origins.specs.FromOutside.{EachHasOutsideOrigin};
ghost use Rattle.theory_origins.specs.AtNatives.{EachWasPassedOn};
ghost use Rattle.theory_origins.specs.Live.{EachIsLive, EachIsHeld};
ghost use Rattle.theory_origins.specs.Throughout.{HistoriesHaveOrigins, ScenariosHaveOrigins, HonestScenarios, HonestForScenarios};

/// A datagram from an address of a server or a relay is that node's; from a NAT's, it is of a client whose way out ends
/// there.
/// Needs: a history of a topology that keeps its rules, in which no event puts a datagram onto the wire from an address
/// of a node (`legal/Honest.antt`).
pub fn own_sources()
    ensures { EachHasOwnSource }
{}

/// A datagram from an endpoint of a server is one of this server's sends, where the event of its record doesn't speak
/// for the server. A `stranger` or a `copy` speaks for it that has one of its endpoints as its source.
/// Needs: a history of a topology that keeps its rules.
pub fn own_voices()
    ensures { EachServerHasOwnVoice }
{}

/// A datagram from the address of a NAT goes to another address: a NAT sends nothing back to its own.
/// Needs: a history of a topology that keeps its rules, in which no event puts a datagram onto the wire from an address
/// of a node.
pub fn goes_elsewhere()
    ensures { EachGoesElsewhere }
{}

/// What is honest is honest for each client. It is stated in `Throughout.antt`, with both words in `legal/Honest.antt`.
/// Needs: a topology that keeps its rules.
pub fn honest_is_for_each()
    ensures { HonestIsForEach }
{}

/// What a client's server says of its receiver's origin is the endpoint that the datagram goes to. This holds of each
/// datagram from one of the two endpoints of that server with an authentication.
/// Needs: a history of a topology that keeps its rules, which is honest for the client.
/// Leaves open: a server that no client names; no client asks it.
pub fn tells_where_to()
    ensures { EachEntryTellsWhereTo }
{}

/// A datagram from the endpoint that its Teredo source embeds is a stranger's, a copy, or a client's, and no server's
/// and no relay's.
/// Needs: a history of a topology that keeps its rules, in which no event puts a datagram onto the wire from an address
/// of a node.
pub fn comes_from_clients()
    ensures { EachComesFromClient }
{}

/// Each packet that a client's host is handed is the end of a datagram that the client's NATs let in, and no bubble;
/// with a Teredo source the datagram came from the endpoint that this embeds. This holds whatever strangers do.
/// Needs: a history of a topology.
pub fn is_brought()
    ensures { EachIsBrought }
{}

/// Each packet that a client's host is handed, at once or late, was brought by a datagram of the wire: by the one that
/// the record delivers, or by one that the client was given earlier, and held. This holds whatever its source is, and
/// whatever strangers do.
/// Needs: a history of a topology.
pub fn is_brought_by()
    ensures { EachIsBroughtBy }
{}

/// What a host is handed late is from outside Teredo: so all that it is handed with a Teredo source is handed at once.
/// Needs: a history of a topology.
pub fn late_is_foreign()
    ensures { EachLateHandedIsForeign }
{}

/// The datagram of a packet with a Teredo source that a client's host is handed was put onto the wire by a `stranger`
/// or a `copy`, or left a client's outermost NAT from the endpoint that the source embeds; and that client's host had
/// handed in these very bytes while its address was the source. This holds whatever strangers do, and whichever NATs
/// are behind others.
/// Needs: a history of a topology that keeps its rules.
/// Leaves open: that the client still has the address.
pub fn has_origin()
    ensures { EachHasOrigin }
{}

/// Each packet from outside Teredo that a client's host is handed, at once or late, came in a datagram that a
/// `stranger` or a `copy` put onto the wire; or in one from a relay's endpoint, and a native host that names this
/// relay, and whose address is the packet's source, had sent these very bytes: its host had handed them in, or they are
/// its echo reply. This holds whatever strangers do, and whichever NATs are behind others.
/// `crates/worked_facts/proofs/OutsideFacts.antt` has one that is handed over at once, and one late, whose bytes came
/// twice, from the relay and from a stranger: both are told.
/// Needs: a history of a topology that keeps its rules.
/// Leaves open: that it is the native's whom it names, where somebody speaks for a relay or answers a client's test.
pub fn has_outside_origin()
    ensures { EachHasOutsideOrigin }
{}

/// Each packet with a Teredo source that is delivered to a native host was passed on by a server or a relay, out of a
/// datagram from the endpoint that the source embeds. This was put there by a `stranger` or a `copy`; or it left a
/// client's outermost NAT from there, and the client's host had handed in these very bytes while its address was the
/// source, or the client had made them of itself: a test, or a bubble. This holds whatever strangers do, and whichever
/// NATs are behind others. It is stated in `AtNatives.antt`, with what is passed on in `legal/GivesPacket.antt`.
/// Needs: a history of a topology that keeps its rules.
/// Leaves open: that a bubble comes there only where somebody speaks for a server.
pub fn was_passed_on()
    ensures { EachWasPassedOn }
{}

/// Each address that a client gets embeds an endpoint that leads to the client: the address of a NAT behind no other,
/// and from there live ports to the client. This holds at the record that sets it.
/// Needs: a history of a topology that keeps its rules, which is honest for the client: no event puts a datagram onto
/// the wire from one of the two endpoints of its server (`legal/Honest.antt`).
/// Leaves open: for how long.
pub fn is_live()
    ensures { EachIsLive }
{}

/// In `lab`, where no NAT is behind another one, that is the address of the client's NAT, and a port that it holds for
/// the client.
pub fn is_held()
    ensures { EachIsHeld }
{}

/// What is said here of origins holds at each record of a history, so at each that is played of a scenario. The history
/// of an honest scenario is honest, and that of one that is honest for a client is so.
/// Needs: for the second, events that the nodes can be asked for.
pub fn histories_have_origins()
    ensures { HistoriesHaveOrigins }
{}

/// So has the history of every scenario, as far as it was played.
/// See `histories_have_origins`.
pub fn scenarios_have_origins()
    ensures { ScenariosHaveOrigins }
{}

/// The history of an honest scenario is honest.
/// See `histories_have_origins`.
pub fn honest_scenarios()
    ensures { HonestScenarios }
{}

/// That of one that is honest for a client is so.
/// See `histories_have_origins`.
pub fn honest_for_scenarios()
    ensures { HonestForScenarios }
{}
