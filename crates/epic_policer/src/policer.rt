//! The policer: what is offered to it, and what it answers.
ghost use Rattle.std.specs.Prelude.{◌≡◌, ℕ, ◌≤◌, [], length, IfOk, OnOk, IsOk};
ghost use Rattle.epic_num.specs.declared.name.AsId.{AsId};
ghost use Rattle.epic_policer.specs.Offers.{Offers, is_among};

use crate::accounts::{Accounts, Charged, charge, open};
use crate::sweep::sweep;
use crate::{Packet, Policed};
use epic_num::{AsId, OutOfMemory};
use epic_pool::Pool;
use std::alloc::Global;
use std::marker::Model;

/// What the sources have used of their budgets.
#[derive(Drop)]
pub struct Policer {
    accounts: Accounts,
    pool: Pool<Packet>,
    budget: u64,
    span_us: u64,
    latest: u64,
}

impl Model for Policer {
    ghost use Rattle.epic_policer.specs.Offers.{Held};

    ghost Value = { Held };

    ghost use Rattle.std.specs.HashMap.{keys};
    ghost use Rattle.epic_policer.specs.Kept.{IsKept};
    ghost use Rattle.epic_policer.specs.Queue.{entries_of};

    ghost view = { λ p. record { policy = record { sources = keys p.accounts; budget = p.budget; span_us = p.span_us }; passed = entries_of p.pool; latest = p.latest; spare = p.pool.spare } };

    ghost invariant = { λ p. IsKept p.budget p.latest p.accounts.entries p.pool };
}

impl Policer {
    /// A policer of these sources, 4,096 at most, that no packet has passed yet, without room. Each source may have `budget` bytes
    /// passed within `span_us` microseconds.
    pub fn new(
        alloc: Global,
        sources: &[AsId],
        budget: u64,
        span_us: u64,
    ) -> Result<Policer, OutOfMemory>
        requires { length sources.now ≤ 4096 }
        ensures sources { IfOk result (λ policer. (s : AsId) → is_among policer.policy.sources s ≡ is_among sources.now s) }
        ensures budget { IfOk result (λ policer. policer.policy.budget ≡ budget) }
        ensures span { IfOk result (λ policer. policer.policy.span_us ≡ span_us) }
        ensures passed { IfOk result (λ policer. policer.passed ≡ []) }
        ensures latest { IfOk result (λ policer. policer.latest ≡ 0) }
    {
        let accounts = open(alloc, sources)?;
        let pool = Pool::new(alloc, sources.len() as u32, 1)?;
        Ok(Policer {
            accounts,
            pool,
            budget,
            span_us,
            latest: 0,
        })
    }

    /// Makes room for so many more packets, of whatever sources. Out of memory, some of the room may have grown.
    pub fn reserve(&mut self, n: u32) -> Result<(), OutOfMemory>
        ensures room { OnOk result (n ≤ self.new.spare) }

        // It fails only where there wasn't room already.
        ensures succeeds { n ≤ self.old.spare → IsOk result }

        // Whatever the result, nothing else changes, and no room is lost.
        ensures passed { self.new.passed ≡ self.old.passed }
        ensures latest { self.new.latest ≡ self.old.latest }
        ensures policy { self.new.policy ≡ self.old.policy }
        ensures kept { self.old.spare ≤ self.new.spare }
    {
        self.pool.reserve(n)
    }

    /// For how many more packets there is room.
    pub fn spare(&self) -> u32
        ensures { result ≡ self.now.spare }
    {
        self.pool.spare()
    }

    /// The moment of the last offer, in microseconds, or 0 before the first.
    pub fn latest(&self) -> u64
        ensures { result ≡ self.now.latest }
    {
        self.latest
    }

    /// Offers a packet of a source, of `bytes` bytes, at `now`, in microseconds. It takes no memory.
    pub fn offer(&mut self, source: AsId, bytes: u32, now: u64) -> Policed
        requires room { 1 ≤ self.old.spare }
        requires latest { self.old.latest ≤ now }
        ensures { Offers self.old self.new (record { source = source; bytes = bytes; moment = now }) result }
    {
        self.latest = now;
        sweep(
            &mut self.pool,
            &mut self.accounts,
            self.budget,
            self.span_us,
            now,
        );
        match charge(&mut self.accounts, source, bytes, self.budget) {
            Charged::Taken { list, used } => {
                let packet = Packet {
                    source,
                    bytes,
                    moment: now,
                };
                let Ok(_) = self.pool.insert(list, 0, packet) else {
                    unreachable!()
                };
                Policed::Pass { used }
            }
            Charged::Over { used } => Policed::Over { used },
            Charged::Unknown => Policed::Unknown,
        }
    }
}
