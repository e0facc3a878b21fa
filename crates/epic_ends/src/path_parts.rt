//! The parts of a path that a packet takes over.
ghost use Rattle.std.specs.Prelude.{◌≡◌, ◌+◌, ◌≤◌, ◌++◌, ◌↔◌, All, IsTrue, length, map, reverse, take};
ghost use Rattle.arrayvec.specs.ArrayVec.{array_vec_len};
ghost use Rattle.epic_num.specs.Paths as paths;
ghost use Rattle.epic_layout.specs.PathRoutes as routes;
ghost use Rattle.epic_topo.specs.Network.{has};

use arrayvec::ArrayVec;
use epic_layout::{HopHead, SegmentHead, head_of, hop_head};
use epic_num::{AsId, Leg, Path, SegHop};
use epic_topo::Topology;

/// How many hops a path has at most.
pub const MOST_HOPS: usize = 32;

/// How many legs a path has at most.
const MOST_LEGS: usize = 3;

const NO_SEGMENT: SegmentHead = SegmentHead {
    against: false,
    count: 0,
    ts_path: 0,
};

const NO_HOP: HopHead = HopHead {
    exp: 0,
    inn: 0,
    out: 0,
    link: [0; 8],
};

/// The AS where a leg begins.
#[tactic(auto, unfolding(epic_num::specs::Paths::start_of, epic_num::specs::Segments::first_as, epic_num::specs::Segments::last_as, epic_num::specs::Segments::first_hop, epic_num::specs::Segments::last_hop))]
fn leg_start(leg: &Leg) -> AsId
    ensures { result ≡ paths.start_of leg.now }
{
    if leg.against {
        leg.segment.hops.last().map_or(AsId(0), |hop| hop.asn)
    } else {
        leg.segment.hops.first().map_or(AsId(0), |hop| hop.asn)
    }
}

/// The AS where a path begins.
#[tactic(auto, unfolding(epic_num::specs::Paths::path_start))]
pub fn start_of(path: &Path) -> AsId
    ensures { result ≡ paths.path_start path.now.legs.items }
{
    path.legs.first().map_or(AsId(0), leg_start)
}

/// Puts hops behind others.
fn push_hops(all: &mut ArrayVec<SegHop, MOST_HOPS>, hops: &[SegHop])
    requires { array_vec_len all.old + length hops.now ≤ 32 }
    ensures { all.new.items ≡ all.old.items ++ hops.now }
{
    for hop in hops {
        all.push(*hop);
    }
}

/// Puts hops behind others, the last one first.
fn push_hops_back(all: &mut ArrayVec<SegHop, MOST_HOPS>, hops: &[SegHop])
    requires { array_vec_len all.old + length hops.now ≤ 32 }
    ensures { all.new.items ≡ all.old.items ++ reverse hops.now }
{
    for i in 0..hops.len() {
        all.push(hops[hops.len() - 1 - i]);
    }
}

/// Puts a leg's hops in travel order behind others.
#[tactic(auto, unfolding(epic_num::specs::Paths::travelled))]
fn push_leg(all: &mut ArrayVec<SegHop, MOST_HOPS>, leg: &Leg)
    requires { array_vec_len all.old + length leg.now.segment.hops.items ≤ 32 }
    ensures { all.new.items ≡ all.old.items ++ paths.travelled leg.now }
{
    if leg.against {
        push_hops_back(all, leg.segment.hops.as_slice());
    } else {
        push_hops(all, leg.segment.hops.as_slice());
    }
}

/// A path's hops in travel order.
#[tactic(auto, unfolding(epic_num::specs::Paths::path_hops))]
pub fn hops_of(path: &Path) -> ArrayVec<SegHop, MOST_HOPS>
    ensures { result.items ≡ paths.path_hops path.now.legs.items }
{
    let mut hops = ArrayVec::new();
    let legs = path.legs.as_slice();
    for leg in legs {
        push_leg(&mut hops, leg);
    }
    hops
}

/// Whether the topology has the AS of each hop of a path.
pub fn has_path(topo: &Topology, path: &Path) -> bool
    ensures { IsTrue result ↔ All (λ h. IsTrue (has topo.now h.asn)) (paths.path_hops path.now.legs.items) }
{
    let hops = hops_of(path);
    has_hops(topo, hops.as_slice())
}

/// Whether the topology has the AS of each of the hops.
fn has_hops(topo: &Topology, hops: &[SegHop]) -> bool
    ensures { IsTrue result ↔ All (λ h. IsTrue (has topo.now h.asn)) hops.now }
{
    hops.iter().all(|hop| topo.has(hop.asn))
}

/// The headers of the segments of a packet over these legs; behind them stand empty ones.
pub fn segment_heads(legs: &[Leg]) -> [SegmentHead; MOST_LEGS]
    requires { length legs.now ≤ 3 }
    ensures { take (length legs.now) result ≡ map routes.head_of legs.now }
{
    let mut heads = [NO_SEGMENT; MOST_LEGS];
    for (i, leg) in legs.iter().enumerate() {
        heads[i] = head_of(leg);
    }
    heads
}

/// The hops of a packet over these hops; behind them stand empty ones.
pub fn hop_heads(hops: &[SegHop]) -> [HopHead; MOST_HOPS]
    requires { length hops.now ≤ 32 }
    ensures { take (length hops.now) result ≡ map routes.hop_head hops.now }
{
    let mut heads = [NO_HOP; MOST_HOPS];
    for (j, hop) in hops.iter().enumerate() {
        heads[j] = hop_head(hop);
    }
    heads
}
