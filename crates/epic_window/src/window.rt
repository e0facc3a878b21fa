//! The window: what is offered to it, and what it answers.
ghost use Rattle.std.specs.Prelude.{◌≡◌, ℕ, ◌+◌, ◌≤◌, [], OnOk, IsOk};
ghost use Rattle.epic_num.specs.Moments.{IsFresh};
ghost use Rattle.epic_window.specs.Entries.{Same};
ghost use Rattle.epic_window.specs.Offers.{Offers};

use crate::clock::first_bucket;
use crate::growth::{grow, room};
use crate::seeded::Seeded;
use crate::slots::Slots;
use crate::sweep::sweep;
use crate::totals::{Totals, count_one};
use crate::turns::{Turns, turn_of};
use crate::{Offer, WinKey, slots, turns};
use epic_num::{OutOfMemory, Profile, bucket};
use std::alloc::Global;
use std::collections::HashMap;
use std::marker::Model;

/// The packets that were here, as far as they are live.
#[derive(Drop)]
pub struct Window {
    profile: Profile,
    turns: Turns,
    slots: Slots,
    totals: Totals,
    latest: u64,
}

impl Model for Window {
    ghost use Rattle.epic_window.specs.Offers.{Held};

    ghost Value = { Held };

    ghost use Rattle.epic_window.specs.Counts.{Tallied};
    ghost use Rattle.epic_window.specs.Room.{room};

    ghost view = { λ w. record { profile = w.profile; entries = w.turns.entries; latest = w.latest; spare = room w.turns w.slots w.totals } };

    ghost invariant = { λ w. Tallied w.profile w.turns.entries w.slots.entries w.totals.entries w.latest };
}

impl Window {
    /// A window without entries. It takes no memory. No answer depends on the seed: it is a secret that makes it hard to
    /// choose keys that are slow to find.
    pub fn new(alloc: Global, profile: &Profile, seed: &[u8; 16]) -> Window
        ensures profile { result.profile ≡ profile.now }
        ensures entries { result.entries ≡ [] }
        ensures latest { result.latest ≡ 0 }
    {
        let seeded = Seeded::new(seed);
        Window {
            profile: *profile,
            turns: HashMap::with_hasher(alloc, seeded),
            slots: HashMap::with_hasher(alloc, seeded),
            totals: HashMap::with_hasher(alloc, seeded),
            latest: 0,
        }
    }

    /// Makes room for so many more entries. Out of memory, some of the room may have grown.
    pub fn reserve(&mut self, n: u32) -> Result<(), OutOfMemory>
        ensures room { OnOk result (n ≤ self.new.spare) }

        // It fails only where there wasn't room already.
        ensures succeeds { n ≤ self.old.spare → IsOk result }

        // Whatever the result, all that is live stays so, nothing else changes, and no room is lost.
        ensures entries { Same self.old.profile self.old.latest self.new.entries self.old.entries }
        ensures latest { self.new.latest ≡ self.old.latest }
        ensures profile { self.new.profile ≡ self.old.profile }
        ensures kept { self.old.spare ≤ self.new.spare }
    {
        if n <= self.spare() {
            return Ok(());
        }
        let first = first_bucket(&self.profile, self.latest);
        sweep(&mut self.turns, &mut self.slots, &mut self.totals, first);
        grow(&mut self.turns, &mut self.slots, &mut self.totals, n)
    }

    /// For how many more entries there is room.
    pub fn spare(&self) -> u32
        ensures { result ≡ self.now.spare }
    {
        room(&self.turns, &self.slots, &self.totals)
    }

    /// The moment of the last offer, in microseconds, or 0 before the first.
    pub fn latest(&self) -> u64
        ensures { result ≡ self.now.latest }
    {
        self.latest
    }

    /// Offers a key at `now`, in microseconds, in the turn of a number. It takes no memory.
    pub fn offer(&mut self, key: WinKey, now: u64, turn: u32) -> Offer
        requires room { 1 ≤ self.old.spare }
        requires latest { self.old.latest ≤ now }
        requires fresh { IsFresh self.old.profile key.ts now }
        ensures { Offers self.old self.new key now turn result }
    {
        self.latest = now;
        if let Some(first) = turn_of(&self.turns, &key) {
            return Offer::Seen { first };
        }
        let asn = key.src.asn;
        if let Some(live) = count_one(&self.profile, &self.slots, &mut self.totals, asn, now) {
            return Offer::Full { live };
        }
        turns::add(&mut self.turns, key, turn);
        slots::add(&mut self.slots, asn, bucket(key.ts));
        Offer::Fresh
    }
}
