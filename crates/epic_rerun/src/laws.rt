//! What holds of the files of all runs, proved of the definitions alone.
ghost use Rattle.epic_rerun.specs.Rerun.{RunsAreJudgedTrue, RunsAreTold, ScriptNamesFit};

use epic_reread::{
    given_verdicts_are_judged_true, held_verdicts_fit, other_hops_are_there,
    placed_ledgers_are_read_back, run_verdicts_can_be_told,
};
use epic_text::commands_are_spelled;

/// What a ledger has from the commands of a script alone fits its type.
pub fn script_names_fit()
    ensures { ScriptNamesFit }
{
    commands_are_spelled();
}

/// Each line of a run's ledger file may follow those before it, and each of its acceptances has its verdict, which holds over the
/// ledger before the acceptance's passage and can be told.
pub fn runs_are_told()
    ensures { RunsAreTold }
{
    held_verdicts_fit();
    other_hops_are_there();
    run_verdicts_can_be_told();
}

/// The judge may say yes to the files that a run writes, with the number of the run's acceptances, where both are within the limits.
pub fn runs_are_judged_true()
    ensures { RunsAreJudgedTrue }
{
    runs_are_told();
    placed_ledgers_are_read_back();
    given_verdicts_are_judged_true();
}
