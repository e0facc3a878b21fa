//! How many entries each AS has in each bucket.
ghost use Rattle.std.specs.Prelude.{◌≡◌, ℕ, ◌+◌, ◌-◌, ◌^◌, ◌<◌, ◌≤◌, ◌&&◌, ◌==◌, if◌then◌else◌};
ghost use Rattle.std.specs.HashMap.{spare};
ghost use Rattle.epic_num.specs.declared.name.AsId.{AsId};
ghost use Rattle.epic_window.specs.Counts.{in_slot, in_slots};

use crate::seeded::Seeded;
use epic_num::AsId;
use std::collections::HashMap;

/// A source AS, and a bucket.
#[derive(Clone, Copy, PartialEq, Eq, Hash)]
pub struct Slot {
    pub asn: AsId,
    pub bucket: u64,
}

pub type Slots = HashMap<Slot, u32, Seeded>;

/// How many entries an AS has in a bucket.
#[tactic(auto, unfolding(crate::specs::Counts::in_slot))]
pub fn in_slot(slots: &Slots, asn: AsId, bucket: u64) -> u32
    ensures { result ≡ in_slot slots.now.entries asn bucket }
{
    match slots.get(&Slot { asn, bucket }) {
        Some(count) => *count,
        None => 0,
    }
}

/// What is left of `live` entries of an AS without those in so many buckets from one on.
pub fn without(slots: &Slots, asn: AsId, live: u32, from: u64, buckets: u64) -> u32
    requires { from + buckets < 2 ^ 64 }
    ensures { result ≡ live - in_slots slots.now.entries asn from buckets }
{
    let mut left = live;
    for past in 0..buckets {
        left = left.saturating_sub(in_slot(slots, asn, from + past));
    }
    left
}

/// Counts one more entry of an AS in a bucket.
#[tactic(auto, unfolding(crate::specs::Counts::in_slot))]
pub fn add(slots: &mut Slots, asn: AsId, bucket: u64)
    requires room { 1 ≤ spare slots.old }
    requires small { in_slot slots.old.entries asn bucket + 1 < 2 ^ 32 }
    ensures counts { (a : AsId) (b : ℕ) → in_slot slots.new.entries a b ≡ in_slot slots.old.entries a b + (if asn.0 == a.0 && bucket == b then 1 else 0) }
    ensures spare { spare slots.old ≤ spare slots.new + 1 }
{
    let slot = Slot { asn, bucket };
    match slots.get_mut(&slot) {
        Some(count) => *count += 1,
        None => {
            let Ok(_) = slots.insert(slot, 1) else {
                unreachable!()
            };
        }
    }
}
