//! The place of a hop in its segment.
ghost use Rattle.std.specs.Prelude.{◌≡◌, ◌<◌, ◌≤◌};
ghost use Rattle.epic_layout.specs.Route as route;
ghost use Rattle.epic_layout.specs.Layout.{segments_in, hops_in};
ghost use Rattle.epic_view.specs.View.{IsView};

use crate::frame::Frame;
use epic_layout::{HopPlace, segment_head_at};

/// The segment that a hop stands in, and its index there.
#[tactic(auto, using(crate::proofs::Walk::walk), unfolding(epic_layout::specs::Route::place))]
pub fn place_at(bytes: &[u8], frame: Frame, hop: u8) -> HopPlace
    requires view { IsView bytes.now frame }
    requires there { hop < hops_in bytes.now }
    ensures place { result ≡ route.place (segments_in bytes.now) hop }
    ensures inside { result.index < result.head.count }
    ensures passed { result.index ≤ hop }
{
    let mut index = hop;
    for segment in 0..frame.shape.segments {
        let head = segment_head_at(bytes, segment);
        if index < head.count {
            return HopPlace {
                segment,
                head,
                index,
            };
        }
        index -= head.count;
    }
    unreachable!()
}

/// The hop's place in its segment in construction order, from 1.
#[tactic(auto, unfolding(epic_layout::specs::Route::position))]
pub fn position(place: HopPlace) -> u8
    requires { place.index < place.head.count }
    ensures { result ≡ route.position place }
{
    if place.head.against {
        place.head.count - place.index
    } else {
        place.index + 1
    }
}

/// The hop is the first of its segment in travel order.
#[tactic(auto, unfolding(epic_layout::specs::Route::is_first))]
pub fn is_first(place: HopPlace) -> bool
    ensures { result ≡ route.is_first place }
{
    place.index == 0
}

/// The hop is the last of its segment in travel order.
#[tactic(auto, unfolding(epic_layout::specs::Route::is_last))]
pub fn is_last(place: HopPlace) -> bool
    requires { place.index < place.head.count }
    ensures { result ≡ route.is_last place }
{
    place.index + 1 == place.head.count
}

/// The hop of the same segment whose position is one greater, where `hop` stands at the place.
#[tactic(auto, unfolding(epic_layout::specs::Route::position, epic_layout::specs::Route::successor))]
pub fn successor(place: HopPlace, hop: u8) -> Option<u8>
    requires inside { place.index < place.head.count }
    requires passed { place.index ≤ hop }
    requires fits { hop < 255 }
    ensures { result ≡ route.successor place hop }
{
    if position(place) == place.head.count {
        None
    } else if place.head.against {
        Some(hop - 1)
    } else {
        Some(hop + 1)
    }
}
