//! Room for more entries.
ghost use Rattle.std.specs.Prelude.{◌≡◌, ℕ, ◌≤◌, IsOk, OnOk};
ghost use Rattle.std.specs.HashMap.{IsReordered, spare};
ghost use Rattle.std.specs.List.Sorted.{IsPermutation};
ghost use Rattle.std.specs.Map.{lookup};
ghost use Rattle.epic_num.specs.declared.name.AsId.{AsId};
ghost use Rattle.epic_window.specs.Counts.{in_slot, total_of};
ghost use Rattle.epic_window.specs.Entries.{same_win_key};
ghost use Rattle.epic_window.specs.Room.{room};
ghost use Rattle.epic_window.specs.declared.key.WinKey.{WinKey};

use crate::seeded::Seeded;
use crate::slots::Slots;
use crate::totals::Totals;
use crate::turns::Turns;
use epic_num::OutOfMemory;
use std::collections::HashMap;
use std::hash::Hash;

/// How many places a map grows by at least, so that sweeps are rare.
const LEAST: usize = 32;

/// For how many more entries all three maps have room.
#[tactic(auto, unfolding(crate::specs::Room::room))]
pub fn room(turns: &Turns, slots: &Slots, totals: &Totals) -> u32
    ensures { result ≡ room turns.now slots.now totals.now }
{
    let turns_room = turns.capacity() - turns.len();
    let slots_room = slots.capacity() - slots.len();
    let totals_room = totals.capacity() - totals.len();
    turns_room
        .min(slots_room)
        .min(totals_room)
        .min(u32::MAX as usize) as u32
}

/// Makes room in a map for so many more entries, and for half as many as it has, as far as there is memory.
fn grow_map<K: Eq + Hash, V>(map: &mut HashMap<K, V, Seeded>, n: usize) -> Result<(), OutOfMemory>
    ensures entries { IsReordered K.eq map.old map.new }
    ensures room { OnOk result (n ≤ spare map.new) }
    ensures succeeds { n ≤ spare map.old → IsOk result }
    ensures kept { spare map.old ≤ spare map.new }
{
    let ample = n.max(map.len() / 2).max(LEAST);
    if map.reserve(ample).is_ok() || map.reserve(n).is_ok() {
        Ok(())
    } else {
        Err(OutOfMemory)
    }
}

/// Makes room in all three maps. Out of memory, some may have grown.
#[tactic(auto, unfolding(crate::specs::Counts::in_slot, crate::specs::Counts::total_of, crate::specs::Entries::same_win_key, crate::specs::Room::room, epic_num::specs::Same::same_host, epic_num::specs::Same::same_as))]
pub fn grow(
    turns: &mut Turns,
    slots: &mut Slots,
    totals: &mut Totals,
    n: u32,
) -> Result<(), OutOfMemory>
    ensures permuted { IsPermutation turns.old.entries turns.new.entries }
    ensures turns { (k : WinKey) → lookup (same_win_key k) turns.new.entries ≡ lookup (same_win_key k) turns.old.entries }
    ensures slots { (a : AsId) (b : ℕ) → in_slot slots.new.entries a b ≡ in_slot slots.old.entries a b }
    ensures totals { (a : AsId) → total_of totals.new.entries a ≡ total_of totals.old.entries a }
    ensures room { OnOk result (n ≤ room turns.new slots.new totals.new) }
    ensures succeeds { n ≤ room turns.old slots.old totals.old → IsOk result }
    ensures kept { room turns.old slots.old totals.old ≤ room turns.new slots.new totals.new }
{
    grow_map(turns, n as usize)?;
    grow_map(slots, n as usize)?;
    grow_map(totals, n as usize)?;
    Ok(())
}
