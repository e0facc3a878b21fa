//! What holds of packets at both ends of their way, proved of the definitions alone.
ghost use Rattle.epic_ends.specs.RightArrivals.{ArrivalsAreRight};
ghost use Rattle.epic_ends.specs.SentPackets.{MadePacketsAreSpelled, MadePacketsHaveFields, PacketsStayRight, SentPacketsAreMade};

/// A law: what a destination takes is right, whatever the bytes and whatever its window tells.
pub fn arrivals_are_right()
    ensures { ArrivalsAreRight }
{}

/// A law: a packet that is sent over a lawful path with the hops' own authenticators is that over the topology's, has the
/// fields of the formulas, and is within the layout's limits.
pub fn sent_packets_are_right()
    ensures made { SentPacketsAreMade }
    ensures fields { MadePacketsHaveFields }
    ensures spelled { MadePacketsAreSpelled }
{}

/// A law: on its way such a packet stays right at each of its hops, and at its end.
pub fn packets_stay_right()
    ensures { PacketsStayRight }
{}
