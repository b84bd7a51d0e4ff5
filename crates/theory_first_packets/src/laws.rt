//! What becomes of first packets.
ghost use Rattle.theory_first_packets.specs.MayMeet.{EachNextPacketArrives, StrangersMayMeet};
ghost use Rattle.theory_first_packets.specs.Throughout.{EachFirstPacketArrives, HistoriesCarryFirstPackets, ScenariosCarryFirstPackets};
ghost use Rattle.theory_first_packets.specs.Courses.{EachTakesACourse, HistoriesTakeCourses};
ghost use Rattle.theory_first_packets.specs.AlongWays.{FirstPacketArrivesAlong, TakesACourseAlong, NextPacketArrivesAlong, OfEachSchedule, HistoriesCarryAlong};
ghost use Rattle.theory_first_packets.specs.NoRoom.{FullSenderDrops, FullReceiverHearsNothing};

/// A later packet is carried as a first one is, within the same bounds, wherever the two may meet. The receiver isn't
/// fresh at the sender, lists it or has room for it, and keeps no packet for it. A receiver whose address has no cone
/// bit isn't barred for the sender either; and the sender isn't barred for it, lists it or has room for it, and keeps
/// no packet for it. Whether one trusts the other, and what it tried before, is no matter beside that.
/// Needs: a history of a topology that keeps its rules, and a chain that does. The premise in `AlongWays.antt`, what
/// becomes of the packet in `FirstPacket.antt`, schedules in `Schedules.antt`, clients settled along their ways in
/// `theory_ways/SettledAlong.antt`.
/// Leaves open: what makes a client settled.
pub fn next_packet_arrives_along()
    ensures { OfEachSchedule NextPacketArrivesAlong }
{}

/// A first packet is carried in every fresh schedule after it, whichever NATs are behind others: within five
/// deliveries, four from a cone client, one to a cone client; and it arrives where the schedule is complete. This holds
/// whatever happened before.
/// Needs: a history of a topology that keeps its rules, and a chain that does. The premise in `AlongWays.antt`, what
/// becomes of the packet in `FirstPacket.antt`, schedules in `Schedules.antt`, clients settled along their ways in
/// `theory_ways/SettledAlong.antt`.
/// Leaves open: what makes a client settled.
pub fn first_packet_arrives_along()
    ensures { OfEachSchedule FirstPacketArrivesAlong }
{}

/// A complete schedule after a first packet takes one of its courses: so it has exactly five deliveries, four or one,
/// with these fates in this order, and no others. There are six courses where neither address has the cone bit, one
/// where only the sender's has it, and one where the receiver's has it. Two of the ways that it can go have the same
/// fates: those in which the straight bubble comes third or fourth.
/// Needs: a history of a topology that keeps its rules, and a chain that does. The premise in `AlongWays.antt`, what
/// becomes of the packet in `FirstPacket.antt`, schedules in `Schedules.antt`, clients settled along their ways in
/// `theory_ways/SettledAlong.antt`.
/// Leaves open: what makes a client settled.
pub fn takes_a_course_along()
    ensures { OfEachSchedule TakesACourseAlong }
{}

/// First packets are carried at each record of every history, whatever comes after the schedule, so at each record that
/// is played of a scenario.
/// Needs: for the last, events that the nodes can be asked for.
pub fn histories_carry_along()
    ensures { HistoriesCarryAlong }
{}

/// Where no NAT is behind another one, too: a packet between clients that may meet is carried.
/// See `next_packet_arrives_along`.
pub fn next_packet_arrives()
    ensures { EachNextPacketArrives }
{}

/// Strangers may meet: so what is said of first packets is a case of what is said of later ones.
pub fn strangers_may_meet()
    ensures { StrangersMayMeet }
{}

/// Where no NAT is behind another one, a first packet between settled clients behind different NATs is carried in every
/// fresh schedule after it. A case of `first_packet_arrives_along`. It is stated in `FirstPacket.antt`, settled clients in
/// `theory_settled/Settled.antt`.
pub fn first_packet_arrives()
    ensures { EachFirstPacketArrives }
{}

/// And a complete schedule takes one of the courses.
/// See `takes_a_course_along`.
pub fn takes_a_course()
    ensures { EachTakesACourse }
{}

/// So it is at each record of every history.
/// See `histories_carry_along`.
pub fn histories_carry_first_packets()
    ensures { HistoriesCarryFirstPackets }
{}

/// First packets take one of their courses at each record of every history; `histories_carry_along` says it too.
pub fn histories_take_courses()
    ensures { HistoriesTakeCourses }
{}

/// And each is carried in the history of every scenario, as far as it was played.
/// See `histories_carry_along`.
pub fn scenarios_carry_first_packets()
    ensures { ScenariosCarryFirstPackets }
{}

/// A sender without room for the receiver drops the packet, which draws nothing: no delivery can follow, and it doesn't
/// get through.
/// Needs: no NAT behind another one, and what the claim on that needs, but for what the two know of each other; and a
/// receiver without the cone bit.
/// Leaves open: what the sender does once it has room.
pub fn full_sender_drops()
    ensures { FullSenderDrops }
{}

/// A client without room for another one answers no bubble of it, and its host is handed nothing of it. This holds
/// whatever datagram comes, from wherever, in any history.
/// Needs: that its packet is from the other's address.
/// Leaves open: when there is room again.
pub fn full_receiver_hears_nothing()
    ensures { FullReceiverHearsNothing }
{}
