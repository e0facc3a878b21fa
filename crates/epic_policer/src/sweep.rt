//! Forgets the packets whose span is over.
ghost use Rattle.std.specs.Prelude.{◌≡◌, ◌≤◌, length};
ghost use Rattle.std.specs.HashMap.{keys};
ghost use Rattle.epic_num.specs.declared.name.AsId.{AsId};
ghost use Rattle.epic_policer.specs.Accounts.{list_in};
ghost use Rattle.epic_policer.specs.Kept.{IsKept};
ghost use Rattle.epic_policer.specs.Offers.{Same};
ghost use Rattle.epic_policer.specs.Queue.{AllLive, entries_of};

use crate::Packet;
use crate::accounts::{Accounts, release};
use crate::queue::take_dead;
use epic_pool::Pool;

/// Takes out all packets that no longer count at `now`, in microseconds, and what their sources have used for them.
pub fn sweep(pool: &mut Pool<Packet>, accounts: &mut Accounts, budget: u64, span_us: u64, now: u64)
    requires kept { IsKept budget now accounts.old.entries pool.old }
    ensures kept { IsKept budget now accounts.new.entries pool.new }
    ensures live { AllLive span_us now (entries_of pool.new) }
    ensures same { Same span_us now (entries_of pool.new) (entries_of pool.old) }
    ensures keys { keys accounts.new ≡ keys accounts.old }
    ensures lists { (s : AsId) → list_in accounts.new.entries s ≡ list_in accounts.old.entries s }
    ensures spare { pool.old.spare ≤ pool.new.spare }
{
    while let Some(packet) = take_dead(pool, span_us, now) {
        release(accounts, packet.source, packet.bytes);
    }
}
