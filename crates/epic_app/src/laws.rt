//! What holds of every run that writes files besides its output.

ghost use Rattle.epic_app.specs.KeptFiles.{FilesAreWhole};

/// A law: each file that a run writes has what it begins with and what each step adds to it, in
/// order, once all acts of the run were done. Before that it is a front of this, or what it was
/// before the run. No other file changes.
#[tactic(auto, using(crate::proofs::KeptLaws::files_are_whole))]
pub fn files_are_whole()
    ensures { FilesAreWhole }
{}
