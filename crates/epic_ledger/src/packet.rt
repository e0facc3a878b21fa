//! Packets whose bytes have no fault.
ghost use Rattle.std.specs.Prelude.{◌≡◌, None};
ghost use Rattle.epic_num.specs.Levels.{is_first_byte};
ghost use Rattle.epic_layout.specs.Layout.{fault, parse};

use epic_layout::shape_of;
use epic_view::PacketRef;

/// The packet of bytes without a fault, which are not checked again.
#[tactic(auto, unfolding(epic_layout::specs::Layout::parse))]
pub fn packet_in(bytes: &[u8]) -> PacketRef<'_>
    requires { fault is_first_byte bytes.now ≡ None }
    ensures { result ≡ parse bytes.now }
{
    PacketRef::of(bytes, shape_of(bytes))
}
