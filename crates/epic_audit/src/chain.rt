//! Whole segments, proved of the definitions alone.
ghost use Rattle.epic_audit.specs.Chain.{ChainsAreWhole, IssuedChainsAreWhole};

/// Where all hops of a segment were accepted, and the last in construction order was issued, they were issued as one chain,
/// unless two hops have one link tag. So it is where each of them was issued.
pub fn whole_chains()
    ensures last_issued { ChainsAreWhole }
    ensures all_issued { IssuedChainsAreWhole }
{}
