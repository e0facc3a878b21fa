//! Where the hops of a packet stand in their segments.
ghost use Rattle.std.specs.Prelude.{◌≡◌, None};
ghost use Rattle.epic_num.specs.Levels.{is_first_byte};
ghost use Rattle.epic_layout.specs.Layout.{fault, parse};
ghost use Rattle.epic_ledger.specs.Walks.{spot};

use crate::packet::packet_in;

/// The number of a hop's segment, from 0, and how many hops of the segment come after it in construction order.
#[derive(Clone, Copy)]
pub struct Spot {
    pub segment: u8,
    pub after: u8,
}

/// The spot of a packet's hop.
#[tactic(auto, using(crate::proofs::Spots::spots), unfolding(crate::specs::Walks::spot, epic_layout::specs::Spelling::segment_bytes, epic_layout::specs::Route::body))]
pub fn spot_of(bytes: &[u8], hop: u8) -> Option<Spot>
    requires { fault is_first_byte bytes.now ≡ None }
    ensures { result ≡ spot (parse bytes.now) hop }
{
    let packet = packet_in(bytes);
    if hop >= packet.shape().hops {
        return None;
    }
    let segment = packet.segment_of(hop);
    let head = packet.segment_head(segment);
    Some(Spot {
        segment,
        after: head[1] - packet.body(hop).pos,
    })
}
