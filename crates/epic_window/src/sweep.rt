//! Forgets the entries whose bucket is over.
ghost use Rattle.std.specs.Prelude.{◌≡◌, ◌≤◌, nat_le, nat_lt, filter};
ghost use Rattle.std.specs.HashMap.{spare};
ghost use Rattle.epic_num.specs.declared.name.AsId.{AsId};
ghost use Rattle.epic_window.specs.Counts.{is_kept, total_of, discounted, unless_empty};

use crate::slots::Slots;
use crate::totals::{Totals, lower};
use crate::turns::Turns;
use epic_num::bucket;

/// Takes the entries before the bucket `first` out of the totals.
fn discount(turns: &Turns, totals: &mut Totals, first: u64)
    ensures totals { (a : AsId) → total_of totals.new.entries a ≡ discounted turns.now.entries a first (total_of totals.old.entries a) }
    ensures spare { spare totals.new ≡ spare totals.old }
{
    for (key, _) in turns.iter() {
        lower(totals, key.src.asn, bucket(key.ts), first);
    }
}

/// Keeps the entries from a bucket on.
fn keep_turns(turns: &mut Turns, first: u64)
    ensures entries { turns.new.entries ≡ filter (is_kept first) turns.old.entries }
    ensures spare { spare turns.old ≤ spare turns.new }
{
    turns.retain(|key, _| first <= bucket(key.ts));
}

/// Keeps the slots from a bucket on.
fn keep_slots(slots: &mut Slots, first: u64)
    ensures entries { slots.new.entries ≡ filter (λ s. nat_le first s.0.bucket) slots.old.entries }
    ensures spare { spare slots.old ≤ spare slots.new }
{
    slots.retain(|slot, _| first <= slot.bucket);
}

/// Drops the totals that count nothing.
fn keep_totals(totals: &mut Totals)
    ensures totals { (a : AsId) → total_of totals.new.entries a ≡ unless_empty (total_of totals.old.entries a) }
    ensures spare { spare totals.old ≤ spare totals.new }
{
    totals.retain(|_, total| total.live > 0);
}

/// Forgets the entries before the bucket `first`, the slots there, and the totals that then count nothing.
pub fn sweep(turns: &mut Turns, slots: &mut Slots, totals: &mut Totals, first: u64)
    ensures turns { turns.new.entries ≡ filter (is_kept first) turns.old.entries }
    ensures slots { slots.new.entries ≡ filter (λ s. nat_le first s.0.bucket) slots.old.entries }
    ensures totals { (a : AsId) → total_of totals.new.entries a ≡ unless_empty (discounted turns.old.entries a first (total_of totals.old.entries a)) }
    ensures turns_spare { spare turns.old ≤ spare turns.new }
    ensures slots_spare { spare slots.old ≤ spare slots.new }
    ensures totals_spare { spare totals.old ≤ spare totals.new }
{
    discount(turns, totals, first);
    keep_turns(turns, first);
    keep_slots(slots, first);
    keep_totals(totals);
}
