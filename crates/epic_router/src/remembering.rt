//! What a router's window answers of a packet that passed all other checks, and remembers of it.
ghost use Rattle.std.specs.Prelude.{◌≡◌, ℕ, ◌≤◌, IsTrue, is_none};
ghost use Rattle.epic_num.specs.Levels.{is_timed};
ghost use Rattle.epic_num.specs.Moments.{IsFresh};
ghost use Rattle.epic_num.specs.Tables.{first_row};
ghost use Rattle.epic_topo.specs.Network.{Network};
ghost use Rattle.epic_router.specs.Checks.{window_rows};
ghost use Rattle.epic_router.specs.Remembering.{Remembers, key_at, told};

use epic_num::{Check, is_timed};
use epic_view::PacketRef;
use epic_window::{Offer, WinKey, Window};

/// What the router's window knows the packet by.
#[tactic(auto, unfolding(crate::specs::Remembering::key_at))]
fn key_of(packet: &PacketRef<'_>) -> WinKey
    ensures { result ≡ key_at packet.now packet.now.current }
{
    WinKey {
        src: packet.src(),
        ts: packet.ts(),
        hop: packet.current(),
    }
}

/// The check of a packet that passed all others, at `now` in microseconds and in the turn of a number: at levels 1 to 3 it
/// wasn't here before, and there is room to remember it. If so, it is remembered from now on. Takes no memory.
pub(crate) fn window_refusal(
    window: &mut Window,
    packet: &PacketRef<'_>,
    now: u64,
    turn: u32,
) -> Option<(Check, u8)>
    requires room { 1 ≤ window.old.spare }
    requires latest { window.old.latest ≤ now }
    requires fresh { IsTrue (is_timed packet.now.first) → IsFresh window.old.profile packet.now.ts now }
    ensures value { (t : Network) → t.profile ≡ window.old.profile → result ≡ first_row (window_rows t (told window.old now packet.now) packet.now packet.now.current) }
    ensures window { Remembers window.old window.new now turn packet.now (is_none result) }
{
    if !is_timed(packet.first_byte()) {
        return None;
    }
    let hop = packet.current();
    match window.offer(key_of(packet), now, turn) {
        Offer::Fresh => None,
        Offer::Seen { first } => Some((Check::Replay { first }, hop)),
        Offer::Full { live } => Some((Check::WindowFull { live }, hop)),
    }
}
