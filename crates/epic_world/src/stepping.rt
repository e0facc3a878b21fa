//! Steps that change nothing but how many there were, and the moment.
ghost use Rattle.std.specs.Prelude.{◌≡◌, ◌-◌, ◌^◌, ◌<◌, ◌≤◌, Ok};

use crate::World;
use epic_actors::actors_stand;
use epic_model::inv_is_kept;
use epic_num::{Answer, MAX_MOMENT, Refusal};

impl World {
    ghost use Rattle.epic_model.specs.Steps.{next_at};
    ghost use Rattle.epic_model.specs.Traces.{answered, refused};
    ghost use Rattle.epic_world.specs.Stepped.{Steps};

    // One more step, which this answers.
    pub(crate) fn answered(&mut self, answer: Answer) -> Answer
        requires { self.old.state.steps < 2 ^ 30 - 1 }
        ensures step { Steps (answered self.old.state answer) (Ok result) self.old.state self.new.state }
        ensures network { self.new.network ≡ self.old.network }
    {
        inv_is_kept();
        self.steps += 1;
        answer
    }

    // One more step, which was refused.
    pub(crate) fn refused(&mut self, refusal: Refusal) -> Answer
        requires { self.old.state.steps < 2 ^ 30 - 1 }
        ensures step { Steps (refused self.old.state refusal) (Ok result) self.old.state self.new.state }
        ensures network { self.new.network ≡ self.old.network }
    {
        self.answered(Answer::Refused(refusal))
    }

    // The present moment becomes this one, where it is later.
    #[tactic(auto, unfolding(epic_model::specs::Steps::next_at))]
    pub(crate) fn at(&mut self, moment: u64) -> Answer
        requires few { self.old.state.steps < 2 ^ 30 - 1 }
        requires moment { moment ≤ MAX_MOMENT }
        ensures step { Steps (next_at self.old.state moment) (Ok result) self.old.state self.new.state }
        ensures network { self.new.network ≡ self.old.network }
    {
        inv_is_kept();
        actors_stand();
        self.moment = self.moment.max(moment);
        self.steps += 1;
        Answer::Moment
    }
}
