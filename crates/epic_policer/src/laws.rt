//! What holds of answers to many offers, proved of the definitions alone.
ghost use Rattle.epic_policer.specs.Apart.{SourcesStandApart};
ghost use Rattle.epic_policer.specs.Policing.{PolicersStandApart};
ghost use Rattle.epic_policer.specs.Runs.{AnswersFold};

/// A law: where two lists of offers agree on the packets of one source, with their lengths and moments, the answers to that source
/// are equal, whatever the others do.
pub fn sources_stand_apart()
    ensures { SourcesStandApart }
{}

/// A law: the answers of a policer to many offers are those of the definition, wherever room was made between them.
pub fn answers_fold()
    ensures { AnswersFold }
{}

/// A law: each AS's policer answers as one that has nothing offered but the packets at this AS.
pub fn policers_stand_apart()
    ensures { PolicersStandApart }
{}
