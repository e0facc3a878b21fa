//! What holds of all judgments, proved of the definitions alone.
ghost use Rattle.epic_judging.specs.Laws.{JudgmentsAreDecided, JudgmentsExist, JudgmentsAreOne, EachIsClaimed};

/// Whether a verdict line is true of an acceptance is decided by tests over what the lines before it tell, whoever wrote them.
pub fn judgments_are_decided()
    ensures { JudgmentsAreDecided }
{}

/// Of every ledger file and every verdict file there is one judgment, which speaks of each acceptance of the ledger file.
pub fn judgments_are_one()
    ensures exist { JudgmentsExist }
    ensures one { JudgmentsAreOne }
    ensures each { EachIsClaimed }
{}
