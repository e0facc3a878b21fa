//! Whose keys became known to all.
ghost use Rattle.std.specs.Prelude.{◌≡◌, option_map};
ghost use Rattle.epic_ledger.specs.Facts.{facts_of};
ghost use Rattle.epic_ledger.specs.Queries.{reveal_of};

use crate::Ledger;
use crate::reveal_index::first_reveal;
use epic_num::Holder;

/// A holder that was revealed, and the step.
#[derive(Clone, Copy)]
pub struct Revealing {
    pub step: u32,
    pub holder: Holder,
}

impl Ledger {
    /// The step at which the keys of a holder first became known to all.
    #[tactic(auto, unfolding(crate::specs::Facts::facts_of, crate::specs::Walks::reveal_in))]
    pub fn revealed(&self, holder: &Holder) -> Option<u32>
        ensures { result ≡ option_map (λ r. r.step) (reveal_of (facts_of self.now.history).reveals holder.now) }
    {
        match first_reveal(&self.reveals, self.log.events(), *holder) {
            Some(revealing) => Some(revealing.step),
            None => None,
        }
    }
}
