//! Laws of hosts that send nothing, or to which nothing comes, by what they are: `off`, `away`, `one_nat`, and a sender that is barred.
ghost use Rattle.theory_reaching.specs.Away.{AwayBringsNothing};
ghost use Rattle.theory_reaching.specs.Promises.{KeepsItsPromise, KeepsBetweenClients};
ghost use Rattle.theory_reaching.specs.Silent.{OffMakesNothing, BarredSenderIsSilent};
ghost use Rattle.theory_reaching.specs.declared.word.Reach.TheVariants.{Off, Away, OneNat};

/// Where the word is `off`, the record of the packet is a drop, it makes nothing, and no delivery of a fresh schedule
/// follows. This holds whatever happened before. It is stated in `Promises.antt`, the words in `Reach.antt`.
/// Needs: a history of a topology that keeps its rules, and a chain that does.
pub fn off_is_kept()
    ensures { KeepsItsPromise Off }
{}

/// Whatever the host of a client that isn't qualified hands in is `off`, and makes nothing. This holds for whatever
/// address.
/// Needs: a history.
pub fn off_makes_nothing()
    ensures { OffMakesNothing }
{}

/// Where the word is `away`, of a client's packet and of a native host's, the record of the packet is a drop, it makes
/// nothing, and no delivery of a fresh schedule follows. The receiver isn't qualified, so a packet for it goes to the
/// unspecified address.
pub fn away_is_kept()
    ensures { KeepsItsPromise Away }
{}

/// Where it is `away`, whatever the sender's host hands in, for whatever address, no fresh schedule after it brings any
/// packet to the receiver's host. So it is of a packet for an address that the receiver had before.
pub fn away_brings_nothing()
    ensures { AwayBringsNothing }
{}

/// Where it is `one_nat`, no fresh schedule brings the packet. This holds whoever spoke for others before.
/// Leaves open: what others send or repeat meanwhile, which no fresh schedule has.
pub fn one_nat_is_kept()
    ensures { KeepsBetweenClients OneNat }
{}

/// Where the sender is barred for the receiver, the record of its packet makes nothing.
/// Leaves open: a sender that isn't barred, whose bubbles the receiver may not answer.
pub fn barred_sender_is_silent()
    ensures { BarredSenderIsSilent }
{}
