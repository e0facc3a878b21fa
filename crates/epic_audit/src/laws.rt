//! What holds of all kept ledgers, proved of the definitions alone.
ghost use Rattle.epic_audit.specs.Laws.{HopVerdictsHold, DestVerdictsHold};

/// The verdict of an accepted hop is Proved exactly where its provenance stands in the ledger, and every verdict holds.
pub fn hop_verdicts()
    ensures { HopVerdictsHold }
{}

/// The same of a packet at its destination.
pub fn dest_verdicts()
    ensures { DestVerdictsHold }
{}
