//! The turn of each key.
ghost use Rattle.std.specs.Prelude.{◌≡◌, ℕ, ◌+◌, ◌≤◌, ◌∷◌, None, Some, if◌then◌else◌};
ghost use Rattle.std.specs.HashMap.{spare};
ghost use Rattle.std.specs.List.Sorted.{IsPermutation};
ghost use Rattle.std.specs.Map.{lookup};
ghost use Rattle.epic_window.specs.Entries.{same_win_key};
ghost use Rattle.epic_window.specs.declared.key.WinKey.{WinKey};

use crate::WinKey;
use crate::seeded::Seeded;
use std::collections::HashMap;

pub type Turns = HashMap<WinKey, u32, Seeded>;

/// The turn of the entry with this key, live or not.
#[tactic(auto, unfolding(crate::specs::Entries::same_win_key, epic_num::specs::Same::same_host, epic_num::specs::Same::same_as))]
pub fn turn_of(turns: &Turns, key: &WinKey) -> Option<u32>
    ensures { result ≡ lookup (same_win_key key.now) turns.now.entries }
{
    turns.get(key).copied()
}

/// Adds an entry whose key is new.
#[tactic(auto, unfolding(crate::specs::Entries::same_win_key, epic_num::specs::Same::same_host, epic_num::specs::Same::same_as))]
pub fn add(turns: &mut Turns, key: WinKey, turn: u32)
    requires room { 1 ≤ spare turns.old }
    requires absent { lookup (same_win_key key) turns.old.entries ≡ None }
    ensures entries { IsPermutation ((key, turn) ∷ turns.old.entries) turns.new.entries }
    ensures turns { (k : WinKey) → lookup (same_win_key k) turns.new.entries ≡ (if same_win_key key k then Some turn else lookup (same_win_key k) turns.old.entries) }
    ensures spare { spare turns.old ≤ spare turns.new + 1 }
{
    let Ok(_) = turns.insert(key, turn) else {
        unreachable!()
    };
}
