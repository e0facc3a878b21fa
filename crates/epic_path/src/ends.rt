//! Where segments, and legs over them, begin and end.
ghost use Rattle.std.specs.Prelude.{◌≡◌};
ghost use Rattle.epic_num.specs.Segments.{first_as, last_as};
ghost use Rattle.epic_num.specs.Paths.{end_of};
ghost use Rattle.epic_path.specs.Joins.{leg_from};

use epic_num::{AsId, Leg, Segment};

/// A segment's first AS in construction order.
#[tactic(auto, unfolding(epic_num::specs::Segments::first_as, epic_num::specs::Segments::first_hop))]
pub fn first_as(segment: &Segment) -> AsId
    ensures { result ≡ first_as segment.now.hops.items }
{
    segment.hops.first().map_or(AsId(0), |hop| hop.asn)
}

/// A segment's last AS in construction order.
#[tactic(auto, unfolding(epic_num::specs::Segments::last_as, epic_num::specs::Segments::last_hop))]
pub fn last_as(segment: &Segment) -> AsId
    ensures { result ≡ last_as segment.now.hops.items }
{
    segment.hops.last().map_or(AsId(0), |hop| hop.asn)
}

/// The AS where a leg ends.
#[tactic(auto, unfolding(epic_num::specs::Paths::end_of))]
pub fn leg_end(leg: &Leg) -> AsId
    ensures { result ≡ end_of leg.now }
{
    if leg.against {
        first_as(&leg.segment)
    } else {
        last_as(&leg.segment)
    }
}

/// The leg over a segment for who stands at `at`, if one of the segment's ends is there.
#[tactic(auto, unfolding(epic_num::specs::Same::same_as, crate::specs::Joins::leg_from))]
pub fn leg_from(at: AsId, segment: &Segment) -> Option<Leg>
    ensures { result ≡ leg_from at segment.now }
{
    if first_as(segment) == at {
        Some(Leg {
            segment: segment.copied(),
            against: false,
        })
    } else if last_as(segment) == at {
        Some(Leg {
            segment: segment.copied(),
            against: true,
        })
    } else {
        None
    }
}
