//! The paths over the segments that were made.
ghost use Rattle.std.specs.Prelude.{◌≡◌, ◌-◌, ◌^◌, ◌<◌, All, IsTrue, OnOk, IfOk, map, nat_eq};
ghost use Rattle.std.specs.List.{IsDistinct};
ghost use Rattle.epic_num.specs.Segments.{is_well_formed};
ghost use Rattle.epic_beacon.specs.Segments.{segments};
ghost use Rattle.epic_path.specs.Routes.{last_issue};

use crate::World;
use epic_beacon::{Beacons, segments_are_chains};
use epic_num::{Answer, AsId, OutOfMemory, Refusal, Segment};
use epic_path::{PathsError, all_paths};
use std::alloc::{AllocError, Global};

/// The greatest number of paths that are answered.
const MOST_PATHS: u32 = 4096;

/// The segments of all ended issues, in the order of their numbers.
fn ended_segments(alloc: Global, beacons: &Beacons) -> Result<Vec<Segment>, AllocError>
    ensures value { IfOk result (λ s. s.items ≡ segments beacons.now.beacons) }
    ensures well_formed { IfOk result (λ s. All (λ x. IsTrue (is_well_formed x)) s.items) }
    ensures distinct { IfOk result (λ s. IsDistinct nat_eq (map last_issue s.items)) }
{
    segments_are_chains();
    let mut segments = Vec::new(alloc);
    for before in 0..beacons.len() {
        match beacons.segment(before + 1) {
            Ok(segment) => segments.push(segment)?,
            Err(_) => {}
        }
    }
    Ok(segments)
}

impl World {
    ghost use Rattle.epic_world.specs.Stepped.{Steps};
    ghost use Rattle.epic_model.specs.Steps.{next_paths};

    // Every path between two ASes.
    #[tactic(auto, unfolding(epic_model::specs::Steps::next_paths))]
    pub(crate) fn paths(
        &mut self,
        alloc: Global,
        from: AsId,
        to: AsId,
    ) -> Result<Answer, OutOfMemory>
        requires { self.old.state.steps < 2 ^ 30 - 1 }
        ensures step { Steps (next_paths self.old.network self.old.state from to) result self.old.state self.new.state }
        ensures network { self.new.network ≡ self.old.network }
    {
        if !self.topo.has(from) {
            return Ok(self.refused(Refusal::UnknownAs(from)));
        }
        if !self.topo.has(to) {
            return Ok(self.refused(Refusal::UnknownAs(to)));
        }
        let Ok(segments) = ended_segments(alloc, &self.beacons) else {
            return Err(OutOfMemory);
        };
        match all_paths(alloc, segments.as_slice(), from, to, MOST_PATHS) {
            Ok(paths) => Ok(self.answered(Answer::Paths(paths))),
            Err(PathsError::TooMany) => Ok(self.refused(Refusal::TooManyPaths)),
            Err(PathsError::OutOfMemory) => Err(OutOfMemory),
        }
    }
}
