//! What a reader reads, as the contract of a function that does nothing.
ghost use Rattle.std.specs.Prelude.{◌≡◌, ℕ, List};
ghost use Rattle.epic_pcapng.specs.Grammar.{ngrecords};
ghost use Rattle.epic_pcapng.specs.Reading.{ngcapture, start};

/// What is to come to a reader that was fed nothing are the records of the whole file.
#[tactic(auto, unfolding(crate::specs::Grammar::ngrecords))]
pub fn whole_captures()
    ensures { (bytes : List ℕ) → ngcapture.to_come start bytes ≡ ngrecords bytes }
{}
