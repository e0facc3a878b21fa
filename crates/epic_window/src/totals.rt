//! How many entries each AS has from a bucket on.
ghost use Rattle.std.specs.Prelude.{◌≡◌, ◌+◌, ◌^◌, ◌<◌, ◌≤◌, ◌&&◌, ◌==◌, nat_lt, if◌then◌else◌, is_some, IsSome, IsTrue};
ghost use Rattle.std.specs.HashMap.{spare};
ghost use Rattle.std.specs.Map.{lookup};
ghost use Rattle.epic_num.specs.declared.name.AsId.{AsId};
ghost use Rattle.epic_window.specs.Counts.{total_of, brought, first_bucket, lowered, settled, with_one, CountsOne};

use crate::clock::{first_bucket, most_buckets};
use crate::seeded::Seeded;
use crate::slots::{Slots, without};
use epic_num::{AsId, Profile};
use std::collections::HashMap;

/// How many entries an AS has from a bucket on.
#[derive(Clone, Copy)]
pub struct Total {
    pub live: u32,
    pub from: u64,
}

pub type Totals = HashMap<AsId, Total, Seeded>;

/// The total of an AS: none from bucket 0 on, where nothing is counted for it.
#[tactic(auto, unfolding(crate::specs::Counts::total_of))]
fn total_of(totals: &Totals, asn: AsId) -> Total
    ensures { result ≡ total_of totals.now.entries asn }
{
    match totals.get(&asn) {
        Some(total) => *total,
        None => Total { live: 0, from: 0 },
    }
}

/// The total of an AS from the bucket `first` on. Where its own lies `most` buckets before that or more, the entries are counted
/// from `first` on.
#[tactic(auto, unfolding(crate::specs::Counts::brought))]
fn brought(slots: &Slots, asn: AsId, total: Total, first: u64, most: u64) -> Total
    requires starts { total.from ≤ first }
    requires ends { first + most < 2 ^ 64 }
    ensures { result ≡ brought slots.now.entries asn total first most }
{
    let over = first - total.from;
    let live = if most <= over {
        total.live - without(slots, asn, total.live, first, most)
    } else {
        without(slots, asn, total.live, total.from, over)
    };
    Total { live, from: first }
}

/// The total of an AS, brought to the first bucket that is live at `now`, in microseconds, if it reaches the limit.
#[tactic(auto, unfolding(crate::specs::Counts::settled))]
fn settled(profile: &Profile, slots: &Slots, totals: &Totals, asn: AsId, now: u64) -> Total
    requires { (total_of totals.now.entries asn).from ≤ first_bucket profile.now now }
    ensures { result ≡ settled profile.now slots.now.entries asn (total_of totals.now.entries asn) now }
{
    let total = total_of(totals, asn);
    if total.live < profile.window {
        return total;
    }
    brought(
        slots,
        asn,
        total,
        first_bucket(profile, now),
        most_buckets(profile),
    )
}

/// Writes the total of an AS.
#[tactic(auto, unfolding(crate::specs::Counts::total_of))]
fn put(totals: &mut Totals, asn: AsId, total: Total)
    requires { 1 ≤ spare totals.old }
    ensures totals { (a : AsId) → total_of totals.new.entries a ≡ (if asn.0 == a.0 then total else total_of totals.old.entries a) }
    ensures spare { spare totals.old ≤ spare totals.new + 1 }
{
    let Ok(_) = totals.insert(asn, total) else {
        unreachable!()
    };
}

/// Writes the total of an AS that has one.
#[tactic(auto, unfolding(crate::specs::Counts::total_of))]
fn set(totals: &mut Totals, asn: AsId, total: Total)
    requires { IsSome (lookup (λ a. asn.0 == a.0) totals.old.entries) }
    ensures totals { (a : AsId) → total_of totals.new.entries a ≡ (if asn.0 == a.0 then total else total_of totals.old.entries a) }
    ensures spare { spare totals.new ≡ spare totals.old }
{
    match totals.get_mut(&asn) {
        Some(kept) => *kept = total,
        None => unreachable!(),
    }
}

/// Writes the total of an AS that has one, unless it counts nothing.
#[tactic(auto, unfolding(crate::specs::Counts::total_of))]
fn keep(totals: &mut Totals, asn: AsId, total: Total)
    requires { 0 < total.live → IsSome (lookup (λ a. asn.0 == a.0) totals.old.entries) }
    ensures totals { (a : AsId) → total_of totals.new.entries a ≡ (if nat_lt 0 total.live && asn.0 == a.0 then total else total_of totals.old.entries a) }
    ensures spare { spare totals.new ≡ spare totals.old }
{
    if total.live > 0 {
        set(totals, asn, total);
    }
}

/// Counts one more entry of an AS that has a total below the limit, and answers whether it has.
#[tactic(auto, unfolding(crate::specs::Counts::total_of))]
fn raise(totals: &mut Totals, asn: AsId, limit: u32) -> bool
    ensures below { IsTrue result → (total_of totals.old.entries asn).live < limit }
    ensures totals { (a : AsId) → total_of totals.new.entries a ≡ (if result && asn.0 == a.0 then with_one (total_of totals.old.entries asn) else total_of totals.old.entries a) }
    ensures spare { spare totals.new ≡ spare totals.old }
{
    match totals.get_mut(&asn) {
        Some(total) => {
            if total.live < limit {
                total.live += 1;
                true
            } else {
                false
            }
        }
        None => false,
    }
}

/// Counts one more entry of an AS, unless as many as the limit allows are live at `now`, in microseconds: then it answers how
/// many.
pub fn count_one(
    profile: &Profile,
    slots: &Slots,
    totals: &mut Totals,
    asn: AsId,
    now: u64,
) -> Option<u32>
    requires early { (total_of totals.old.entries asn).from ≤ first_bucket profile.now now }
    requires room { 1 ≤ spare totals.old }
    ensures counts { CountsOne profile.now slots.now.entries asn now totals.old.entries totals.new.entries result }
    ensures spare { spare totals.old ≤ spare totals.new + (if is_some result then 0 else 1) }
{
    if raise(totals, asn, profile.window) {
        return None;
    }
    let total = settled(profile, slots, totals, asn, now);
    if total.live >= profile.window {
        keep(totals, asn, total);
        return Some(total.live);
    }
    put(
        totals,
        asn,
        Total {
            live: total.live + 1,
            from: total.from,
        },
    );
    None
}

/// A total without an entry in a bucket, if it counts that bucket and the bucket lies before `first`.
#[tactic(auto, unfolding(crate::specs::Counts::lowered))]
fn lowered(total: Total, bucket: u64, first: u64) -> Total
    ensures { result ≡ lowered bucket first total }
{
    if total.from <= bucket && bucket < first {
        Total {
            live: total.live.saturating_sub(1),
            from: total.from,
        }
    } else {
        total
    }
}

/// Counts an entry of an AS in a bucket no longer, if that bucket lies before `first`.
#[tactic(auto, unfolding(crate::specs::Counts::total_of, crate::specs::Counts::lowered))]
pub fn lower(totals: &mut Totals, asn: AsId, bucket: u64, first: u64)
    ensures totals { (a : AsId) → total_of totals.new.entries a ≡ (if asn.0 == a.0 then lowered bucket first (total_of totals.old.entries a) else total_of totals.old.entries a) }
    ensures spare { spare totals.new ≡ spare totals.old }
{
    if let Some(total) = totals.get_mut(&asn) {
        *total = lowered(*total, bucket, first);
    }
}
