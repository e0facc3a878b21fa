//! What holds of every issue, and of every segment.
ghost use Rattle.epic_beacon.specs.Laws.{IssuesChain, IssuesHaveTimes, IssuesStayInRange, IssuesStayKept, IssuesTell, SegmentsAreChains, SegmentsHaveSigmas, TellsIssues};

/// A law: in a store whose beacons make chains, each segment has its chain's names and kind, and is well formed. Where the
/// beacons are those of which issues tell, its hops have the authenticators of their names.
pub fn segments_are_chains()
    ensures chains { SegmentsAreChains }
    ensures sigmas { SegmentsHaveSigmas }
{}

/// A law: with what is issued the beacons of a store go on to make chains, to keep what issues keep, and to be those of
/// which their issues tell.
pub fn issues_go_on()
    ensures chains { IssuesChain }
    ensures kept { IssuesStayKept }
    ensures told { IssuesTell }
    ensures issues { TellsIssues }
{}

/// A law: a new issue's timestamp is the moment's or its parent's, and its parts fit their types where those of the call
/// and of the issues before it do.
pub fn issues_fit()
    ensures times { IssuesHaveTimes }
    ensures ranges { IssuesStayInRange }
{}
