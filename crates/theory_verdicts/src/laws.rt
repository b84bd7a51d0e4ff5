//! Laws of every history.
ghost use Rattle.theory_verdicts.specs.Right.{EachVerdictIsRight};
ghost use Rattle.theory_verdicts.specs.Stays.{EachAddressStays};
ghost use Rattle.theory_verdicts.specs.Throughout.{HistoriesHaveRightVerdicts, ScenariosHaveRightVerdicts};

/// The verdict of each undisturbed client is right; so is that of each client without the cone phase whose NAT was kept
/// open, and its address has no cone bit. It is stated in `Right.antt`, what disturbs in `Undisturbed.antt`. For each
/// of these premises, the rules of the topology aside, `crates/worked_facts/proofs/DisturbedFacts.antt` has a history
/// without it in which the verdict is wrong.
/// Needs: a history of a topology that keeps its rules, in which no NAT is behind another one, and which is honest for
/// the client. For the second: that since the client's start its NAT wasn't restarted and didn't forget it, and was
/// open to its server from the first datagram or the first answer on; the NAT may know the client from before.
/// Leaves open: for how long, and what others than the server get through.
pub fn verdicts_are_right()
    ensures { EachVerdictIsRight }
{}

/// The address of a client that nothing disturbs stays: since its start nothing that it was told changed it.
/// Needs: a history of a topology that keeps its rules, in which no NAT is behind another one, and which is honest for
/// the client. For the second: that since the client's start its NAT wasn't restarted and didn't forget it, and was
/// open to its server from the first datagram or the first answer on; the NAT may know the client from before.
/// Leaves open: that it stays after a restart.
pub fn addresses_stay()
    ensures { EachAddressStays }
{}

/// Verdicts are right at each record of a history, so at each that is played of a scenario.
/// Needs: for the second, events that the nodes can be asked for.
pub fn histories_have_right_verdicts()
    ensures { HistoriesHaveRightVerdicts }
{}

/// So has the history of every scenario, as far as it was played.
/// See `histories_have_right_verdicts`.
pub fn scenarios_have_right_verdicts()
    ensures { ScenariosHaveRightVerdicts }
{}
