//! Packets that hosts send.
ghost use Rattle.std.specs.Prelude.{◌≡◌, ◌-◌, ◌^◌, ◌<◌, ◌≤◌, All, IfOk, IsTrue, Ok, length};
ghost use Rattle.std.specs.Result.{result_map_both};
ghost use Rattle.epic_num.specs.Levels.{first_byte, is_first_byte};
ghost use Rattle.epic_num.specs.Segments.{is_well_formed};
ghost use Rattle.epic_topo.specs.Network.{has};
ghost use Rattle.epic_model.specs.Steps.{segments_of};
ghost use Rattle.epic_actors.specs.Sources.{IsPathOver};

use crate::World;
use crate::laws::sends_go_on;
use arrayvec::ArrayVec;
use epic_actors::{MOST_BYTES, send_at};
use epic_beacon::{Beacons, segments_are_chains};
use epic_num::{Answer, HostId, Level, OutOfMemory, Path, Refusal, Segment};
use epic_path::join;
use std::alloc::Global;

/// The segments of these numbers, or the first number that has none. It takes no memory.
fn segments_of(beacons: &Beacons, numbers: &[u32]) -> Result<ArrayVec<Segment, 3>, u32>
    requires few { length numbers.now ≤ 3 }
    ensures value { result_map_both (λ s. s.items) (λ n. n) result ≡ segments_of beacons.now.beacons numbers.now }
    ensures well_formed { IfOk result (λ s. All (λ x. IsTrue (is_well_formed x)) s.items) }
{
    segments_are_chains();
    let _count = beacons.len();
    let mut segments = ArrayVec::new();
    for number in numbers {
        match beacons.segment(*number) {
            Ok(segment) => segments.push(segment),
            Err(_) => return Err(*number),
        }
    }
    Ok(segments)
}

/// The numbers once more. It takes no memory.
fn copied(numbers: &ArrayVec<u32, 3>) -> ArrayVec<u32, 3>
    ensures { result ≡ numbers.now }
{
    let Ok(numbers) = ArrayVec::try_from(numbers.as_slice()) else {
        unreachable!()
    };
    numbers
}

impl World {
    ghost use Rattle.epic_model.specs.Steps.{next_send, over_path};
    ghost use Rattle.epic_world.specs.Stepped.{Steps};

    // A host sends a packet over a path, which is the one over the segments of these issues.
    fn send_over(
        &mut self,
        alloc: Global,
        path: &Path,
        version: u8,
        level: Level,
        src: HostId,
        dst: HostId,
        numbers: ArrayVec<u32, 3>,
        payload: &[u8],
    ) -> Result<Answer, OutOfMemory>
        requires few { self.old.state.steps < 2 ^ 30 - 1 }
        requires exists { IsTrue (is_first_byte (first_byte version level)) }
        requires source { IsTrue (has self.old.network src.asn) }
        requires destination { IsTrue (has self.old.network dst.asn) }
        requires over { IsPathOver self.old.network self.old.state.history src numbers.items path.now.legs.items }
        ensures step { Steps (over_path self.old.network self.old.state version level src dst numbers payload.now (Ok path.now.legs.items)) result self.old.state self.new.state }
        ensures network { self.new.network ≡ self.old.network }
    {
        self.ledger.reserve(1, 1, MOST_BYTES)?;
        self.sources.ready(alloc, src)?;
        sends_go_on(&self.topo, src, dst, payload);
        let answer = send_at(
            alloc,
            &self.topo,
            &mut self.ledger,
            &mut self.sources,
            &self.keys,
            path,
            numbers,
            version,
            level,
            src,
            dst,
            payload,
            self.moment,
            self.steps,
        )?;
        self.steps += 1;
        Ok(answer)
    }

    // The host `src` sends a packet. `version` is 1, or 2 at levels 2 and 3; `numbers` are those of the issues that ended the segments
    // of its path, in travel order.
    #[tactic(auto, unfolding(epic_model::specs::Steps::next_send))]
    pub(crate) fn send(
        &mut self,
        alloc: Global,
        version: u8,
        level: Level,
        src: HostId,
        dst: HostId,
        numbers: &ArrayVec<u32, 3>,
        payload: &[u8],
    ) -> Result<Answer, OutOfMemory>
        requires few { self.old.state.steps < 2 ^ 30 - 1 }
        requires exists { IsTrue (is_first_byte (first_byte version level)) }
        ensures step { Steps (next_send self.old.network self.old.state version level src dst numbers.now payload.now) result self.old.state self.new.state }
        ensures network { self.new.network ≡ self.old.network }
    {
        if !self.topo.has(src.asn) {
            return Ok(self.refused(Refusal::UnknownAs(src.asn)));
        }
        if !self.topo.has(dst.asn) {
            return Ok(self.refused(Refusal::UnknownAs(dst.asn)));
        }
        match segments_of(&self.beacons, numbers.as_slice()) {
            Ok(segments) => match join(src.asn, segments.as_slice()) {
                Ok(path) => self.send_over(
                    alloc,
                    &path,
                    version,
                    level,
                    src,
                    dst,
                    copied(numbers),
                    payload,
                ),
                Err(error) => Ok(self.refused(Refusal::Path(error))),
            },
            Err(number) => Ok(self.refused(Refusal::NoSegment(number))),
        }
    }
}
