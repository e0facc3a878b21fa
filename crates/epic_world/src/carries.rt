//! Emissions that are carried to where they go no further.
ghost use Rattle.std.specs.Prelude.{◌≡◌, ◌≢◌, ◌-◌, ◌^◌, ◌<◌, None, Some};
ghost use Rattle.epic_num.specs.declared.command.Command.TheVariants as command;
ghost use Rattle.epic_ledger.specs.History.{emission_at};

use crate::World;
use crate::carrying::carry_here;
use crate::laws::is_topology;
use crate::passing::emission;
use epic_model::honest_carries_arrive;
use epic_num::{Answer, Command, OutOfMemory, PassedList, Place, Refusal};
use std::alloc::Global;

impl World {
    ghost use Rattle.epic_model.specs.Judged.{VerdictsHold};
    ghost use Rattle.epic_model.specs.Steps.{carrying, next, next_carry};
    ghost use Rattle.epic_world.specs.Sound.{IsCarriedWhereHonest};
    ghost use Rattle.epic_world.specs.Stepped.{Carries, Steps};

    // An emission that is there is carried on.
    #[tactic(auto, unfolding(epic_model::specs::Steps::carrying))]
    fn carry_from(
        &mut self,
        alloc: Global,
        number: u32,
        place: Place,
        came: &mut [u8],
    ) -> Result<PassedList, OutOfMemory>
        requires few { self.old.state.steps < 2 ^ 30 - 1 }
        requires there { emission_at self.old.state.history.emissions number ≡ Some (record { place = place; bytes = came.old }) }
        ensures step { Carries (carrying self.old.network self.old.state number) result self.old.state self.new.state }
        ensures network { self.new.network ≡ self.old.network }
    {
        is_topology(&self.topo);
        let step = self.steps + 1;
        let told = carry_here(
            alloc,
            &self.topo,
            &mut self.ledger,
            &mut self.routers,
            &mut self.hosts,
            &self.beacons,
            number,
            place,
            came,
            self.moment,
            step,
        )?;
        self.steps = step;
        Ok(PassedList::from_vec(told))
    }

    // The verdicts of a carry are right, and a packet that is honest is carried to its destination.
    #[tactic(auto, unfolding(crate::specs::Stepped::IsPossible), using(crate::proofs::Runs::honest_carries))]
    fn judges_carry(&self, number: u32)
        ensures verdicts { let n = next self.now.network self.now.state (command.Carry number) in VerdictsHold self.now.network n.answer n.passages }
        ensures honest { IsCarriedWhereHonest self.now.network self.now.state number (next self.now.network self.now.state (command.Carry number)).passages }
    {
        self.judges(&Command::Carry { emission: number });
        is_topology(&self.topo);
        honest_carries_arrive();
    }

    /// One step: an emission that is there is carried on from the place where it is due, the emission that this makes after it, and so
    /// on to where none is made, in a world of fewer than 2^30 - 1 steps. The list has the passes in order; it and the state after it
    /// are those of the step of `Command::Carry`, each verdict in it is right over the ledger before its pass, and the packet of an
    /// honest source is carried to its destination, which takes it.
    ///
    /// # Errors
    /// `OutOfMemory` alone; it is no step, and nothing has changed.
    #[tactic(auto, unfolding(epic_model::specs::Steps::next, epic_model::specs::Steps::next_carry))]
    pub fn carry(&mut self, alloc: Global, number: u32) -> Result<PassedList, OutOfMemory>
        requires there { emission_at self.old.state.history.emissions number ≢ None }
        requires few { self.old.state.steps < 2 ^ 30 - 1 }
        ensures step { Carries (next self.old.network self.old.state (command.Carry number)) result self.old.state self.new.state }
        ensures verdicts { let n = next self.old.network self.old.state (command.Carry number) in VerdictsHold self.old.network n.answer n.passages }
        ensures honest { IsCarriedWhereHonest self.old.network self.old.state number (next self.old.network self.old.state (command.Carry number)).passages }
        ensures network { self.new.network ≡ self.old.network }
    {
        self.judges_carry(number);
        match emission(alloc, &self.ledger, number) {
            Ok(Some((place, mut bytes))) => {
                self.carry_from(alloc, number, place, bytes.as_mut_slice())
            }
            Ok(None) => unreachable!(),
            Err(_) => Err(OutOfMemory),
        }
    }

    // An emission is carried on, if it is there.
    #[tactic(auto, unfolding(epic_model::specs::Steps::next, epic_model::specs::Steps::next_carry, epic_model::specs::Steps::carrying))]
    pub(crate) fn carry_known(&mut self, alloc: Global, number: u32) -> Result<Answer, OutOfMemory>
        requires { self.old.state.steps < 2 ^ 30 - 1 }
        ensures step { Steps (next_carry self.old.network self.old.state number) result self.old.state self.new.state }
        ensures network { self.new.network ≡ self.old.network }
    {
        if self.ledger.emission(number).is_none() {
            return Ok(self.refused(Refusal::UnknownEmission(number)));
        }
        let passes = self.carry(alloc, number)?;
        Ok(Answer::Carried(passes))
    }
}
