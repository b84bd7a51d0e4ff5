//! Laws of every journal of a relay.
ghost use Rattle.relay_rules.specs.Laws.{FateOfRelayReception, FateOfRelayTransmission, RelayReceptionIsWarranted};
ghost use Rattle.relay_rules.specs.Laws.{RelayTransmissionIsWarranted, RelayTriesTouch, RelayJournalIsTried, ConeIsQuiet};
ghost use Rattle.relay_rules.specs.Laws.{WaitingIsForeign, RelayTrustedIsEmbedded, HoldsNothing, RelayJournalHasFew};
ghost use Rattle.relay_rules.specs.TickWarrants.{RelayTickIsWarranted};
ghost use Rattle.relay_rules.specs.Sendings.{EachRelaySend};
ghost use Rattle.relay_rules.specs.ForeignSends.{EachSendIsForeign};

/// What is done has the fate of the line.
pub fn fate_of_reception()
    ensures { FateOfRelayReception }
{}

/// So has what is done with a packet of the IPv6 side.
/// See `fate_of_reception`.
pub fn fate_of_transmission()
    ensures { FateOfRelayTransmission }
{}

/// A fate other than most drops is given only where the conditions of its line hold, and of no line before it that
/// could hold beside them. So an advertisement's fate is that of the phase, for an advertisement of the server that no
/// line refuses; nothing that is handed to the host by rule 1 or 3 is a bubble.
/// Leaves open: the drops.
pub fn reception_is_warranted()
    ensures { RelayReceptionIsWarranted }
{}

/// A packet of the IPv6 side has a fate other than a drop's only by the line of that fate.
/// See `reception_is_warranted`.
pub fn transmission_is_warranted()
    ensures { RelayTransmissionIsWarranted }
{}

/// A tick has a fate only where this is due: a solicitation only in its phase, until it has asked three times; a
/// refresh only where the client is qualified; a try or its end only of the peer that is due first. A tick has no other
/// fate.
pub fn tick_is_warranted()
    ensures { RelayTickIsWarranted }
{}

/// One further entry is one further mention of its peer; each try touches its peer.
pub fn tries_touch()
    ensures { RelayTriesTouch }
{}

/// In a journal moments don't fall, and each try touches its peer.
/// See `tries_touch`.
pub fn journal_is_tried()
    ensures { RelayJournalIsTried }
{}

/// In a relay's journal an address with the cone bit has no tries, and nothing waits for it.
/// Needs: a relay's journal.
pub fn cone_is_quiet()
    ensures { ConeIsQuiet }
{}

/// In a journal no more than 256 peers are listed at any moment.
/// Needs: the moment is none before the latest entry.
pub fn journal_has_few()
    ensures { RelayJournalHasFew }
{}

/// Each packet that waits at a relay is from outside Teredo, to the client for which it waits, at most 1,280 bytes.
/// Needs: a relay's journal.
pub fn waiting_is_foreign()
    ensures { WaitingIsForeign }
{}

/// A Teredo address is trusted at the endpoint that it embeds, and nowhere else.
/// Needs: at a client, its journal since it started.
pub fn trusted_is_embedded()
    ensures { RelayTrustedIsEmbedded }
{}

/// A relay holds no packets.
/// Needs: a relay's journal, or any list of entries.
pub fn holds_nothing()
    ensures { HoldsNothing }
{}

/// Each datagram of a relay is a bubble through the peer's server, or a packet from outside Teredo to the peer's
/// embedded endpoint.
/// Needs: a relay's journal.
/// Leaves open: which fate sends what.
pub fn each_send()
    ensures { EachRelaySend }
{}

/// - What a client or a relay sends are bytes, where what it was given are; a relay's packets are from outside Teredo.
///   Needs: a journal whose inputs, and addresses that, are made of bytes.
/// - What a client or a relay sends fits into a datagram, where what it was given are bytes. It has at most 1,400
///   bytes.
///   Needs: a journal whose inputs, and addresses that, are made of bytes.
/// - What a client or a relay sends goes to an endpoint that datagrams have, where what it was given came from such
///   ones.
///   Needs: a journal whose inputs, and addresses that, are made of bytes, and of a client the other address of its
///   server.
pub fn each_send_is_foreign()
    ensures { EachSendIsForeign }
{}
