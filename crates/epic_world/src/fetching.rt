//! Keys that an AS gets of another.
ghost use Rattle.std.specs.Prelude.{◌≡◌, ◌-◌, ◌^◌, ◌<◌};

use crate::World;
use crate::laws::goes_on;
use epic_keys::Fetched;
use epic_ledger::Event;
use epic_num::{Answer, AsId, OutOfMemory, Refusal};

impl World {
    ghost use Rattle.epic_world.specs.Stepped.{Steps};
    ghost use Rattle.epic_model.specs.Steps.{next_fetch};

    // The AS `source` gets the keys of `owner` for an epoch.
    #[tactic(auto, unfolding(epic_model::specs::Steps::next_fetch))]
    pub(crate) fn fetch(
        &mut self,
        source: AsId,
        owner: AsId,
        epoch: u64,
    ) -> Result<Answer, OutOfMemory>
        requires { self.old.state.steps < 2 ^ 30 - 1 }
        ensures step { Steps (next_fetch self.old.network self.old.state source owner epoch) result self.old.state self.new.state }
        ensures network { self.new.network ≡ self.old.network }
    {
        if !self.topo.has(source) {
            return Ok(self.refused(Refusal::UnknownAs(source)));
        }
        if !self.topo.has(owner) {
            return Ok(self.refused(Refusal::UnknownAs(owner)));
        }
        self.ledger.reserve(1, 0, 0)?;
        match self.keys.fetch(&self.topo, source, owner, epoch) {
            Ok(Fetched::New) => {
                goes_on(&self.topo);
                self.ledger.push(Event::Fetch {
                    step: self.steps + 1,
                    source,
                    owner,
                    epoch,
                });
                self.steps += 1;
                Ok(Answer::Fetched)
            }
            Ok(Fetched::Known) => Ok(self.answered(Answer::Known)),
            Err(OutOfMemory) => Err(OutOfMemory),
        }
    }
}
