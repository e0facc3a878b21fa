//! How a packet's bytes pass the hops that a router handled: they are edited where they lie, one hop after the other.
ghost use Rattle.std.specs.Prelude.{◌≡◌, ◌+◌, ◌<◌, ℕ, [], ◌∷◌, Ok};
ghost use Rattle.epic_num.specs.declared.name.AsId.{AsId};
ghost use Rattle.epic_layout.specs.Contents.{field_bytes, hop_count};
ghost use Rattle.epic_layout.specs.Layout.{checked, parse};
ghost use Rattle.epic_layout.specs.Spelling.{spelling};
ghost use Rattle.epic_topo.specs.Network.{Network};
ghost use Rattle.epic_router.specs.Leaving.{hops_on};
ghost use Rattle.epic_router.specs.Passing.{HasWidth, IsUpdate, passed, updated_by};

use epic_layout::Shape;
use epic_num::{Field, is_updated};
use epic_view::PacketView;

/// At level 3 puts an update in the place of the current hop's field. At other levels it isn't looked at.
#[tactic(auto, unfolding(crate::specs::Passing::updated_by))]
fn put_update(bytes: &mut [u8], sizes: Shape, update: &Field)
    requires checked { Ok sizes ≡ checked bytes.old }
    requires there { (parse bytes.old).current < hop_count (parse bytes.old) }
    requires width { HasWidth (parse bytes.old) update.now }
    ensures packet { parse bytes.new ≡ updated_by (field_bytes update.now) (parse bytes.old) }
    ensures checked { Ok sizes ≡ checked bytes.new }
{
    let mut view = PacketView::of(bytes, sizes);
    let packet = view.as_ref();
    let first = packet.first_byte();
    let hop = packet.current();
    if !is_updated(first) {
        return;
    }
    view.set_field(hop, update);
}

/// Passes the current hop, of which this is the update.
#[tactic(auto, unfolding(crate::specs::Passing::passed))]
fn pass(bytes: &mut [u8], sizes: Shape, update: &Field)
    requires checked { Ok sizes ≡ checked bytes.old }
    requires there { (parse bytes.old).current < hop_count (parse bytes.old) }
    requires width { HasWidth (parse bytes.old) update.now }
    ensures packet { parse bytes.new ≡ passed (field_bytes update.now) (parse bytes.old) }
    ensures spelled { bytes.new ≡ spelling (parse bytes.new) }
    ensures checked { Ok sizes ≡ checked bytes.new }
{
    put_update(bytes, sizes, update);
    let mut view = PacketView::of(bytes, sizes);
    view.advance(1);
}

/// Passes the current hop, of which this is the update.
pub(crate) fn pass_hop(bytes: &mut [u8], sizes: Shape, update: &Field)
    requires checked { Ok sizes ≡ checked bytes.old }
    requires there { (parse bytes.old).current < hop_count (parse bytes.old) }
    requires width { HasWidth (parse bytes.old) update.now }
    ensures { (t : Network) (a : AsId) (generation : ℕ) → IsUpdate t a generation (parse bytes.old) (parse bytes.old).current update.now → bytes.new ≡ spelling (hops_on t a (generation ∷ []) (parse bytes.old)) }
{
    pass(bytes, sizes, update);
}

/// Passes the current hop and the next, of which these are the updates.
pub(crate) fn pass_two_hops(bytes: &mut [u8], sizes: Shape, first: &Field, second: &Field)
    requires checked { Ok sizes ≡ checked bytes.old }
    requires there { (parse bytes.old).current + 1 < hop_count (parse bytes.old) }
    requires first { HasWidth (parse bytes.old) first.now }
    requires second { HasWidth (parse bytes.old) second.now }
    ensures { (t : Network) (a : AsId) (g h : ℕ) → IsUpdate t a g (parse bytes.old) (parse bytes.old).current first.now → IsUpdate t a h (parse bytes.old) ((parse bytes.old).current + 1) second.now → bytes.new ≡ spelling (hops_on t a (g ∷ h ∷ []) (parse bytes.old)) }
{
    pass(bytes, sizes, first);
    pass(bytes, sizes, second);
}
