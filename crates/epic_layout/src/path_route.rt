//! The parts of a packet's route over a path.

ghost use Rattle.std.specs.Prelude.{◌≡◌};
ghost use Rattle.std.specs.Option.{option_map_or};
ghost use Rattle.epic_num.specs.Segments.{first_hop};
ghost use Rattle.epic_layout.specs.PathRoutes as routes;

use crate::{HopHead, SegmentHead};
use epic_num::{Leg, SegHop};

/// A leg of a path as the header of a packet's segment.
#[tactic(auto, unfolding(crate::specs::PathRoutes::head_of, epic_num::specs::Segments::first_hop))]
pub fn head_of(leg: &Leg) -> SegmentHead
    ensures { result ≡ routes.head_of leg.now }
{
    let hops = leg.segment.hops.as_slice();
    SegmentHead {
        against: leg.against,
        count: hops.len() as u8,
        ts_path: first_ts_path(hops),
    }
}

/// A hop of a segment as a packet's hop, without its field.
#[tactic(auto, unfolding(crate::specs::PathRoutes::hop_head))]
pub fn hop_head(hop: &SegHop) -> HopHead
    ensures { result ≡ routes.hop_head hop.now }
{
    HopHead {
        exp: hop.body.exp,
        inn: hop.body.inn,
        out: hop.body.out,
        link: hop.body.link,
    }
}

/// The timestamp of the first of the hops, 0 where there is none.
#[tactic(auto, unfolding(epic_num::specs::Segments::first_hop))]
fn first_ts_path(hops: &[SegHop]) -> u32
    ensures { result ≡ option_map_or (λ h. h.body.ts_path) (first_hop hops.now) 0 }
{
    match hops.first() {
        Some(hop) => hop.body.ts_path,
        None => 0,
    }
}
