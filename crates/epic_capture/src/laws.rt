//! Laws over captures, as the contracts of functions that do nothing.
ghost use Rattle.std.specs.Prelude.{List};
ghost use Rattle.epic_capture.specs.Records.{Captured};
ghost use Rattle.epic_capture.specs.Saving.{ReadsBack};

/// What was saved is read again: the same moments, places and bytes, and no damage.
#[tactic(auto, using(crate::proofs::Saved::saved_again))]
pub fn saved_captures()
    ensures { (xs : List Captured) → ReadsBack xs }
{}
