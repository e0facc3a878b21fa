//! What holds of all routers and hosts, proved of the definitions alone.
ghost use Rattle.epic_actors.specs.Lasting.{HostsStandByTurns, NoneStand, RoutersStandByArrivals, StandAsTimePasses, StandByOthers, StandBySends};

/// A law: before anything happened no router and no host are needed. Those that stand for a ledger go on to as time passes, and as
/// anything else happens than what concerns them: the routers after an arrival, the hosts after a turn, both after any other event
/// and after a packet was sent.
pub fn actors_stand()
    ensures none { NoneStand }
    ensures time { StandAsTimePasses }
    ensures arrivals { RoutersStandByArrivals }
    ensures turns { HostsStandByTurns }
    ensures others { StandByOthers }
    ensures sends { StandBySends }
{}
