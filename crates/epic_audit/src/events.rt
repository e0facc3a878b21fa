//! How a ledger grows, proved of the definitions alone.
ghost use Rattle.epic_audit.specs.Events.{NothingIsKept, EventsKeep, EventsAreLawful, EmissionsAddNothing, EmissionsAreLawful, LawfulPackets, NamesStay};

/// A ledger keeps from the beginning what each event that fits keeps, and stays lawful with it. A packet that is added
/// changes none of its facts. The facts speak of packets, and the hops of sent packets keep their names.
pub fn ledgers()
    ensures none { NothingIsKept }
    ensures kept { EventsKeep }
    ensures lawful { EventsAreLawful }
    ensures same_facts { EmissionsAddNothing }
    ensures still_lawful { EmissionsAreLawful }
    ensures packets { LawfulPackets }
    ensures names { NamesStay }
{}
