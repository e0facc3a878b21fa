//! What holds of all verdict lines, proved of the definitions alone.
ghost use Rattle.epic_reread.specs.Fitting.{HeldVerdictsFit, OtherHopsAreThere, VerdictsCanBeTold};
ghost use Rattle.epic_reread.specs.JudgedYes.{GivenVerdictsAreJudgedTrue};
ghost use Rattle.epic_reread.specs.Rereading.{DestLinesAreReadBack, HopLinesAreReadBack};
ghost use Rattle.epic_reread.specs.WholeFile.{VerdictFilesAreReadBack};

/// The line that a run writes of a verdict is read as what the verdict is told as.
pub fn verdict_lines_are_read_back()
    ensures hops { HopLinesAreReadBack }
    ensures dests { DestLinesAreReadBack }
{}

/// What a verdict is told as is in range and can be named, where the verdict is one of a packet in a topology.
pub fn run_verdicts_can_be_told()
    ensures { VerdictsCanBeTold }
{}

/// The verdict file that a run writes is read as what its verdicts are told as, where it is within the limit.
pub fn verdict_files_are_read_back()
    ensures { VerdictFilesAreReadBack }
{}

/// The parts of a verdict that holds fit their types, where those of the ledger do.
pub fn held_verdicts_fit()
    ensures { HeldVerdictsFit }
{}

/// Where the verdicts of a file hold of what the ledger file's lines accept, and can be told, the judge may say yes.
pub fn given_verdicts_are_judged_true()
    ensures { GivenVerdictsAreJudgedTrue }
{}

/// Of a verdict of a collision that holds over a ledger of a world, the hop that the ledger has is one of the topology's.
pub fn other_hops_are_there()
    ensures { OtherHopsAreThere }
{}
