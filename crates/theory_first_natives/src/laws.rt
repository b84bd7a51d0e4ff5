//! What becomes of first packets between a client and a host of the IPv6 Internet.
ghost use Rattle.theory_first_packets.specs.AlongWays.{OfEachSchedule};
ghost use Rattle.theory_first_natives.specs.FromNative.{FirstFromNativeArrivesAlong};
ghost use Rattle.theory_first_natives.specs.MayMeetThroughRelay.{NewMayMeetThroughRelay};
ghost use Rattle.theory_first_natives.specs.NextFromNative.{NextFromNativeArrivesAlong};
ghost use Rattle.theory_first_natives.specs.ToNative.{FirstToNativeArrivesAlong};
ghost use Rattle.theory_first_natives.specs.NextToNative.{NextToNativeArrivesAlong};
ghost use Rattle.theory_first_natives.specs.Throughout.{HistoriesCarryFromNatives, HistoriesCarryToNatives};

/// A client, a native host and its relay that are new to each other may meet: so first packets are among those that may
/// come.
pub fn new_may_meet_through_relay()
    ensures { NewMayMeetThroughRelay }
{}

/// A later packet from a native host is handed to the client's host too, wherever client, host and relay may meet: by
/// the sixth delivery of a fresh schedule that is complete or has so many, by the ninth where the relay must hear from
/// the client first. This needs that client and relay have room for host and client. A relay that trusts the client is
/// let in to it; one that must ask keeps no packet for it, isn't barred for it, nor the client for the relay, and the
/// client has room for both. A client that doesn't trust the host at the relay may test it: the host isn't fresh, the
/// client isn't barred for it, and holds less than four packets of it. The packet comes late, or at once where the
/// client trusts the host there.
/// Needs: a history of a topology that keeps its rules, and a chain that does; a packet that is neither a bubble nor an
/// echo reply. The premise in `Relayed.antt` and `FromNative.antt`, schedules in `theory_first_packets/Schedules.antt`, a
/// client settled along its way in `theory_ways/SettledAlong.antt`.
/// Leaves open: what follows, of packets that the client kept for the host.
pub fn next_from_native_arrives()
    ensures { OfEachSchedule NextFromNativeArrivesAlong }
{}

/// A first packet from a native host is carried in every fresh schedule after it, whichever NATs are behind others:
/// within nine deliveries, six to a cone client; and it arrives where the schedule is complete. This holds whatever
/// happened before.
/// Needs: a history of a topology that keeps its rules, and a chain that does; a packet that is neither a bubble nor an
/// echo reply. The premise in `Relayed.antt` and `FromNative.antt`, schedules in `theory_first_packets/Schedules.antt`, a
/// client settled along its way in `theory_ways/SettledAlong.antt`.
/// Leaves open: what makes a client settled; whose packet it is, which `theory_origins` says.
pub fn first_from_native_arrives()
    ensures { OfEachSchedule FirstFromNativeArrivesAlong }
{}

/// First packets from native hosts are carried at each record of every history, whatever comes after the schedule.
/// Needs: a history of a topology that keeps its rules, and a chain that does; a packet that is neither a bubble nor an
/// echo reply. The premise in `Relayed.antt` and `FromNative.antt`, schedules in `theory_first_packets/Schedules.antt`, a
/// client settled along its way in `theory_ways/SettledAlong.antt`.
pub fn histories_carry_from_natives()
    ensures { HistoriesCarryFromNatives }
{}

/// A later packet to a native host is brought to it too, wherever the client may reach it through its relay: by the
/// sixth delivery, by the ninth where the relay must hear from the client first. This needs that client and relay have
/// room for host and client, and keep no packets for them. The host isn't fresh at the client, which isn't barred for
/// it. A relay that trusts the client is let in to it; one that must ask isn't barred for it, nor the client for the
/// relay, and the client has room for both.
/// Needs: a history of a topology that keeps its rules, and a chain that does; a packet that is no bubble and may be an
/// echo reply. The premise in `Relayed.antt` and `FromNative.antt`, schedules in `theory_first_packets/Schedules.antt`, a
/// client settled along its way in `theory_ways/SettledAlong.antt`.
/// Leaves open: the same of a fresh host, which `theory_reaching` has.
pub fn next_to_native_arrives()
    ensures { OfEachSchedule NextToNativeArrivesAlong }
{}

/// A first packet to a native host is brought to it by the ninth delivery of a fresh schedule that is complete or has
/// so many, by the sixth from a cone client; the schedule is no longer than that, but by two deliveries where the host
/// answers the packet; and a complete one hands the answer to the client's host. The host keeps the packet, or answers
/// it, as its own table says.
/// Needs: a history of a topology that keeps its rules, and a chain that does; a packet that is no bubble and may be an
/// echo reply. The premise in `Relayed.antt` and `FromNative.antt`, schedules in `theory_first_packets/Schedules.antt`, a
/// client settled along its way in `theory_ways/SettledAlong.antt`.
/// Leaves open: that anything is delivered.
pub fn first_to_native_arrives()
    ensures { OfEachSchedule FirstToNativeArrivesAlong }
{}

/// First packets to native hosts are carried at each record of every history, whatever comes after the schedule.
/// Needs: a history of a topology that keeps its rules, and a chain that does; a packet that is no bubble and may be an
/// echo reply. The premise in `Relayed.antt` and `FromNative.antt`, schedules in `theory_first_packets/Schedules.antt`, a
/// client settled along its way in `theory_ways/SettledAlong.antt`.
pub fn histories_carry_to_natives()
    ensures { HistoriesCarryToNatives }
{}
