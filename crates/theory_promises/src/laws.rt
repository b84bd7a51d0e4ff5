//! Laws of every history.
ghost use Rattle.theory_promises.specs.Kept.{HistoriesAreKept, ScenariosAreKept};

/// Every history keeps all of it, at each of its records. `origins`: whence the packets came that the record hands to a
/// client's host, and whence the one that it brings to a native host, and that an address that it sets leads to its
/// client, in a history that is honest for it. `ways`: where the chain keeps its rules, what
/// `theory_ways/Throughout.antt` says after the record: right verdicts along ways, addresses that stay and differ, and
/// neighbours that aren't heard; `questions`: and, where nodes draw words of 32 bits, which fate an answer has that is
/// delivered at once. `no_storm`: where the latest records, however many are taken, deliver each an entry for the first
/// time, they are at most twelve for each entry that was undelivered and each packet that waited before them; `nine`:
/// and at most nine, of what waited eight for a packet at a client and five for one at a relay. Where no NAT is behind
/// another one: `held`: an address that the record sets embeds the address of its client's NAT, and a port that this
/// holds for the client, and `verdicts`: the verdict of each undisturbed client on its NAT is right, both in a history
/// that is honest for the client. Where the chain keeps its rules: `first_packet`: where the latest records are a fresh
/// schedule after a first packet, they carry it; `course`: and where it is complete, their fates are one of the
/// courses; `from_native`: where they are one after the first packet of a native host to a client, they carry this;
/// `to_native`: and so after the first packet of a client to a native host. Of each packet of a host, and of its reply:
/// `packets`: what carries it, waits or is held with it has its bytes; `handed`: by a record that says that it arrives
/// a host gets them; `lost`: if it is lost it stays so, until an entry that carries it is delivered again; `arrived`:
/// the record by which it arrived is the first that says so. It is stated in `Kept.antt`, in the words of
/// `theory_origins/Throughout.antt`, `theory_origins/Live.antt`, `theory_ways/Throughout.antt`,
/// `theory_answers/Throughout.antt`, `theory_verdicts/Throughout.antt`, `theory_storms/Throughout.antt`,
/// `theory_storms/NineThroughout.antt`, `theory_first_packets/AlongWays.antt`, `theory_first_natives/FromNative.antt`,
/// `theory_first_natives/ToNative.antt`, `theory_loads/Carried.antt`, `theory_loads/Arrivals.antt`,
/// `theory_ends/LostStays.antt` and `theory_ends/FirstArrival.antt`.
/// Needs: a history of a topology that keeps its rules.
/// Leaves open: who speaks for a relay; who else had the address, or gets it later.
pub fn kept()
    ensures { HistoriesAreKept }
{}

/// The history of every scenario keeps all of it, whichever NATs are behind others, as far as it was played; where the
/// scenario is honest, so is its history, and for each client; where it is honest only for one client, for that client;
/// its nodes draw words of 32 bits. Honest: no `stranger` and no `copy` gives an address of a NAT, a server or a relay
/// as its source; for a client: none gives one of the two endpoints of its server (`legal/Honest.antt`).
/// Needs: a topology that keeps its rules, and events that the nodes can be asked for.
pub fn kept_in_scenarios()
    ensures { ScenariosAreKept }
{}
