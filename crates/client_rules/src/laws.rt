//! Laws of every journal of a client.
ghost use Rattle.client_rules.specs.Laws.{FateOfReception, FateOfTransmission, ReceptionIsWarranted};
ghost use Rattle.client_rules.specs.Laws.{TransmissionIsWarranted, NextMentions, TriesTouch, JournalIsTried};
ghost use Rattle.client_rules.specs.Laws.{JournalHasFew};
ghost use Rattle.client_rules.specs.Epochs.{QualifiedHasAddress, QualifiedStays, QueuedIsOwn, NoneQueued, WaitingIsOwn, WaitingWasHandedIn, TrustedIsEmbedded};
ghost use Rattle.client_rules.specs.Sendings.{EachSend};
ghost use Rattle.client_rules.specs.Handed.{EachHanded, EachLate};
ghost use Rattle.client_rules.specs.Numbers.{TestNumbers};
ghost use Rattle.client_rules.specs.MadeSends.{EachStandingIsMade, EachSendIsBytes};
ghost use Rattle.client_rules.specs.TickWarrants.{TickIsWarranted};
ghost use Rattle.client_rules.specs.LateSources.{EachLateIsForeign};
ghost use Rattle.client_rules.specs.Told.{EachAddressIsTold};
ghost use Rattle.client_rules.specs.ShortSends.{EachSendIsShort};
ghost use Rattle.client_rules.specs.Destinations.{EachSendGoesToEndpoint};
ghost use Rattle.client_rules.specs.TakenPlaces.{WantsOnlyQualified};

/// What is done has the fate of the line.
pub fn fate_of_reception()
    ensures { FateOfReception }
{}

/// So has what is done with a packet of the host.
/// See `fate_of_reception`.
pub fn fate_of_transmission()
    ensures { FateOfTransmission }
{}

/// A fate other than most drops is given only where the conditions of its line hold, and of no line before it that
/// could hold beside them. So an advertisement's fate is that of the phase, for an advertisement of the server that no
/// line refuses; nothing that is handed to the host by rule 1 or 3 is a bubble.
/// Leaves open: the drops.
pub fn reception_is_warranted()
    ensures { ReceptionIsWarranted }
{}

/// So has a packet of the host.
/// See `reception_is_warranted`.
pub fn transmission_is_warranted()
    ensures { TransmissionIsWarranted }
{}

/// A tick has a fate only where this is due: a solicitation only in its phase, until it has asked three times; a
/// refresh only where the client is qualified; a try or its end only of the peer that is due first. A tick has no other
/// fate.
pub fn tick_is_warranted()
    ensures { TickIsWarranted }
{}

/// One further entry is one further mention of its peer; each try touches its peer.
pub fn next_mentions()
    ensures { NextMentions }
{}

/// Each try touches its peer.
/// See `next_mentions`.
pub fn tries_touch()
    ensures { TriesTouch }
{}

/// In a journal moments don't fall, and each try touches its peer.
/// See `next_mentions`.
pub fn journal_is_tried()
    ensures { JournalIsTried }
{}

/// A client has an address exactly while it is qualified, and stays qualified.
/// Needs: a client's journal since it started.
pub fn qualified_has_address()
    ensures { QualifiedHasAddress }
{}

/// A qualified client stays qualified.
/// See `qualified_has_address`.
pub fn qualified_stays()
    ensures { QualifiedStays }
{}

/// Each packet that waits at a client is from its address of now, to the peer for which it waits, at most 1,280 bytes,
/// no bubble.
/// Needs: a client's journal since it started; for `queued_is_own` and `none_queued`, the entries since the last change
/// of address.
pub fn queued_is_own()
    ensures { QueuedIsOwn }
{}

/// Without an address nothing was queued.
/// See `queued_is_own`.
pub fn none_queued()
    ensures { NoneQueued }
{}

/// Each packet that waits is from the client's address, and to the one for which it waits.
/// See `queued_is_own`.
pub fn waiting_is_own()
    ensures { WaitingIsOwn }
{}

/// Each packet that waits at a client was handed in by the client's host, for the peer for which it waits, since the
/// last change of address. They are the same, byte for byte.
/// Needs: a client's journal since it started.
pub fn waiting_was_handed_in()
    ensures { WaitingWasHandedIn }
{}

/// A Teredo address is trusted at the endpoint that it embeds, and nowhere else.
/// Needs: at a client, its journal since it started.
pub fn trusted_is_embedded()
    ensures { TrustedIsEmbedded }
{}

/// In a journal no more than 256 peers are listed at any moment.
/// Needs: the moment is none before the latest entry.
pub fn journal_has_few()
    ensures { JournalHasFew }
{}

/// Each datagram of a client is a solicitation of its phase, a bubble or test from its address to the peer, or its
/// host's packet, and goes where the rules say. Packets go with nothing in front: the one that is handed in, to where
/// its destination is trusted or to the endpoint that a cone address embeds; one that waited, to where the datagram
/// came from that releases it. A bubble goes to the endpoint that the peer's address embeds, to its server, or to the
/// origin that it answers.
/// Needs: a client's journal since it started.
/// Leaves open: which fate sends what.
pub fn each_send()
    ensures { EachSend }
{}

/// Each packet that a client hands over, only by rule 1 or 3, came from a peer itself, is for its address and no
/// bubble; of a client, from where its source says.
/// Needs: a client's journal since it started.
/// Leaves open: who is at the endpoint, which is the world's to say.
pub fn each_handed()
    ensures { EachHanded }
{}

/// What a client hands over late, only by rule 2, was held since the last change of address, as the packet of a
/// datagram of that peer from where the answer came from. They are the same, byte for byte, in the order in which they
/// were held.
/// Needs: a client's journal since it started.
/// Leaves open: which of what is held; the table says that it is all.
pub fn each_late()
    ensures { EachLate }
{}

/// The address of a client, and of the peer that an entry is about, has sixteen bytes, where what the client was given
/// are bytes.
/// Needs: a journal whose inputs, and addresses that, are made of bytes.
pub fn each_standing_is_made()
    ensures { EachStandingIsMade }
{}

/// What a client hands over late is from outside Teredo.
/// Needs: a client's journal since it started.
pub fn each_late_is_foreign()
    ensures { EachLateIsForeign }
{}

/// Each address that a client gets embeds the origin in an advertisement, from where its phase expects one, which has
/// an authentication. Nothing is sent for it.
/// Needs: a client's journal since it started, and addresses and a datagram made of bytes.
/// Leaves open: who sent it, and whether the origin is true, which is the world's to say.
pub fn each_address_is_told()
    ensures { EachAddressIsTold }
{}

/// What a client or a relay sends are bytes, where what it was given are; a relay's packets are from outside Teredo.
/// Needs: a journal whose inputs, and addresses that, are made of bytes.
pub fn each_send_is_bytes()
    ensures { EachSendIsBytes }
{}

/// What a client or a relay sends fits into a datagram, where what it was given are bytes. It has at most 1,400 bytes.
/// Needs: a journal whose inputs, and addresses that, are made of bytes.
pub fn each_send_is_short()
    ensures { EachSendIsShort }
{}

/// What a client or a relay sends goes to an endpoint that datagrams have, where what it was given came from such ones.
/// Needs: a journal whose inputs, and addresses that, are made of bytes, and of a client the other address of its
/// server.
pub fn each_send_goes_to_endpoint()
    ensures { EachSendGoesToEndpoint }
{}

/// The numbers of a test are those of the rules. The whole of a test is computed beside bytes that another program
/// made, in `crates/worked_scenarios/proofs/TestBytes.antt`.
pub fn numbers_of_tests()
    ensures { TestNumbers }
{}

/// Outside phase Qualified no datagram needs memory: its packet isn't held, and its source isn't listed.
/// Needs: any journal.
pub fn wants_only_qualified()
    ensures { WantsOnlyQualified }
{}
