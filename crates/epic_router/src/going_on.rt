//! What becomes of a packet that passes all checks: it goes on or is delivered, past the hops that were handled.
ghost use Rattle.std.specs.Prelude.{◌≡◌, ◌+◌, ◌<◌, Ok, [], ◌∷◌, take};
ghost use Rattle.epic_layout.specs.Contents.{hop_count};
ghost use Rattle.epic_layout.specs.Layout.{checked, parse};
ghost use Rattle.epic_layout.specs.Spelling.{spelling};
ghost use Rattle.epic_num.specs.declared.name.AsId.{AsId};
ghost use Rattle.epic_router.specs.Acceptance.{AreUpdates, HaveWidth, generations_of, hops_of, last_of};
ghost use Rattle.epic_router.specs.Handling.{onward};
ghost use Rattle.epic_router.specs.Leaving.{hops_on};
ghost use Rattle.epic_router.specs.Passing.{HasWidth, IsUpdate};
ghost use Rattle.epic_topo.specs.Network.{Network};

use crate::accepted::{Accepted, Handled};
use crate::passing::{pass_hop, pass_two_hops};
use epic_layout::Shape;
use epic_num::Turn;
use epic_view::PacketRef;

/// Where a packet goes from hop `last`, the last of those that were handled, which were accepted under these generations.
#[tactic(auto, unfolding(crate::specs::Handling::onward))]
fn onward(packet: &PacketRef<'_>, last: u8, hops: u8, generations: [u32; 2]) -> Turn
    requires { last < hop_count packet.now }
    ensures { result ≡ onward packet.now last hops generations }
{
    match packet.egress(last) {
        0 => Turn::Deliver {
            host: packet.dst().host,
            hops,
            generations,
        },
        out => Turn::Forward {
            out,
            hops,
            generations,
        },
    }
}

/// The packet passes its current hop.
fn one_on(bytes: &mut [u8], sizes: Shape, hop: &Accepted) -> Turn
    requires checked { Ok sizes ≡ checked bytes.old }
    requires there { (parse bytes.old).current < hop_count (parse bytes.old) }
    requires width { HasWidth (parse bytes.old) hop.now.update }
    ensures answer { result ≡ onward (parse bytes.old) (parse bytes.old).current 1 (hop.now.generation ∷ 0 ∷ []) }
    ensures bytes { (t : Network) (a : AsId) → IsUpdate t a hop.now.generation (parse bytes.old) (parse bytes.old).current hop.now.update → bytes.new ≡ spelling (hops_on t a (hop.now.generation ∷ []) (parse bytes.old)) }
{
    let packet = PacketRef::of(bytes, sizes);
    let answer = onward(&packet, packet.current(), 1, [hop.generation, 0]);
    pass_hop(bytes, sizes, &hop.update);
    answer
}

/// The packet passes its current hop and the next.
fn two_on(bytes: &mut [u8], sizes: Shape, first: &Accepted, second: &Accepted) -> Turn
    requires checked { Ok sizes ≡ checked bytes.old }
    requires there { (parse bytes.old).current + 1 < hop_count (parse bytes.old) }
    requires first { HasWidth (parse bytes.old) first.now.update }
    requires second { HasWidth (parse bytes.old) second.now.update }
    ensures answer { result ≡ onward (parse bytes.old) ((parse bytes.old).current + 1) 2 (first.now.generation ∷ second.now.generation ∷ []) }
    ensures bytes { (t : Network) (a : AsId) → IsUpdate t a first.now.generation (parse bytes.old) (parse bytes.old).current first.now.update → IsUpdate t a second.now.generation (parse bytes.old) ((parse bytes.old).current + 1) second.now.update → bytes.new ≡ spelling (hops_on t a (first.now.generation ∷ second.now.generation ∷ []) (parse bytes.old)) }
{
    let packet = PacketRef::of(bytes, sizes);
    let answer = onward(
        &packet,
        packet.current() + 1,
        2,
        [first.generation, second.generation],
    );
    pass_two_hops(bytes, sizes, &first.update, &second.update);
    answer
}

/// The packet passes the hops that were handled.
pub(crate) fn go_on(bytes: &mut [u8], sizes: Shape, handled: &Handled) -> Turn
    requires checked { Ok sizes ≡ checked bytes.old }
    requires there { last_of (parse bytes.old).current handled.now.second < hop_count (parse bytes.old) }
    requires width { HaveWidth (parse bytes.old) handled.now.first handled.now.second }
    ensures answer { result ≡ onward (parse bytes.old) (last_of (parse bytes.old).current handled.now.second) (hops_of handled.now.second) (generations_of handled.now.first handled.now.second) }
    ensures bytes { (t : Network) (a : AsId) → AreUpdates t a (parse bytes.old) (parse bytes.old).current handled.now.first handled.now.second → bytes.new ≡ spelling (hops_on t a (take (hops_of handled.now.second) (generations_of handled.now.first handled.now.second)) (parse bytes.old)) }
{
    match &handled.second {
        None => one_on(bytes, sizes, &handled.first),
        Some(second) => two_on(bytes, sizes, &handled.first, second),
    }
}
