//! What holds of every capture, as the contract of a function that does nothing.

ghost use Rattle.std.specs.Prelude.{◌≤◌, ℕ, List, length};
ghost use Rattle.epic_feed.specs.Forms.{records_in};

/// A capture of either form has 262,144 records at most.
#[tactic(auto, using(crate::proofs::Few::few_records))]
pub fn few_records()
    ensures { (bytes : List ℕ) → length (records_in bytes).items ≤ 262144 }
{}
