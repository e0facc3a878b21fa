//! The digest of what many rounds gave.

ghost use Rattle.std.specs.Prelude.{◌≡◌, ◌++◌};
ghost use Rattle.epic_cmac.specs.Cmac.{cmac};
ghost use Rattle.epic_num.specs.BigEndian.{u64_bytes};

use crate::work::KEY;
use epic_cmac::CmacState;

/// The tag of how many packets were accepted, sent or fresh, and of the bytes of a last one.
#[tactic(auto, unfolding(epic_num::specs::BigEndian::u64_bytes))]
pub(crate) fn digest(count: u64, packet: &[u8]) -> [u8; 16]
    ensures { result ≡ cmac KEY (u64_bytes count ++ packet.now) }
{
    let mut state = CmacState::start(&KEY);
    state.update(&count.to_be_bytes());
    state.update(packet);
    state.finish()
}
