//! The segments of chains that are ended.
ghost use Rattle.std.specs.Prelude.{◌≡◌, ◌+◌, ◌≤◌, ◌++◌, Some};
ghost use Rattle.arrayvec.specs.ArrayVec.{array_vec_len};
ghost use Rattle.epic_beacon.specs.Chained.{AreChained};
ghost use Rattle.epic_beacon.specs.Segments.{hop_of, last_hops, segment, segment_to};
ghost use Rattle.epic_beacon.specs.Store.{beacon_at};

use crate::beacon::beacon_at;
use crate::{Beacon, Beacons};
use arrayvec::ArrayVec;
use epic_num::{SegHop, Segment};

/// Why an issue has no segment.
#[derive(Clone, Copy, Debug, PartialEq, Eq)]
pub enum SegmentError {
    /// No issue has that number.
    Unknown,
    /// The issue isn't the last hop of a segment.
    NotEnded,
}

impl Beacons {
    /// The segment that ends with the issue of a number: the hops of its chain, in construction order. It takes no memory.
    ///
    /// # Errors
    /// `Unknown` where no issue has the number; `NotEnded` where the issue has an egress.
    #[tactic(auto, unfolding(crate::specs::Segments::segment))]
    pub fn segment(&self, no: u32) -> Result<Segment, SegmentError>
        ensures { result ≡ segment self.now.beacons no }
    {
        match beacon_at(&self.beacons, no) {
            None => Err(SegmentError::Unknown),
            Some(last) => {
                if last.name.body.out == 0 {
                    Ok(segment_to(&self.beacons, no, &last))
                } else {
                    Err(SegmentError::NotEnded)
                }
            }
        }
    }
}

/// The hops of the chain of a beacon, and its kind.
#[tactic(auto, unfolding(crate::specs::Segments::segment_to))]
fn segment_to(beacons: &[Beacon], number: u32, last: &Beacon) -> Segment
    requires chained { AreChained beacons.now }
    requires there { beacon_at beacons.now number ≡ Some last.now }
    ensures { result ≡ segment_to beacons.now number last.now }
{
    let mut hops = ArrayVec::new();
    push_hops(beacons, number, last.name.body.pos, &mut hops);
    Segment {
        kind: last.kind,
        hops,
    }
}

/// Puts the hops of a beacon and of those that it goes on from behind the others, at most so many.
fn push_hops(beacons: &[Beacon], number: u32, most: u8, hops: &mut ArrayVec<SegHop, 16>)
    requires { array_vec_len hops.old + most ≤ 16 }
    ensures room { array_vec_len hops.new ≤ array_vec_len hops.old + most }
    ensures items { hops.new.items ≡ hops.old.items ++ last_hops beacons.now most number }
{
    if most == 0 {
        return;
    }
    match beacon_at(beacons, number) {
        None => {}
        Some(beacon) => {
            push_hops(beacons, beacon.parent, most - 1, hops);
            hops.push(hop_of(number, &beacon));
        }
    }
}

/// A beacon as the hop of a segment.
fn hop_of(number: u32, beacon: &Beacon) -> SegHop
    ensures { result ≡ hop_of number beacon.now }
{
    SegHop {
        issue: number,
        asn: beacon.name.asn,
        body: beacon.name.body,
        sigma: beacon.sigma,
        generation: beacon.name.generation,
    }
}
