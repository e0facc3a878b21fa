//! The policers of a network: one an AS, all with the same settings.
ghost use Rattle.std.specs.Prelude.{◌≡◌, ℕ, ◌≤◌, List, [], ◌∷◌, ◌++◌, length, IfOk, OnOk, OnErr};
ghost use Rattle.epic_policer.specs.Offers.{Policy};
ghost use Rattle.epic_policer.specs.Policing.{Offer, StandFor, said};

use crate::table::{Table, ask};
use crate::{Packet, Policed};
use epic_num::{AsId, OutOfMemory};
use std::alloc::Global;
use std::collections::HashMap;
use std::marker::Model;

/// The policers of all ASes at which packets were offered so far.
#[derive(Drop)]
pub struct Policers {
    sources: Vec<AsId>,
    budget: u64,
    span_us: u64,
    latest: u64,
    by_as: Table,
}

impl Model for Policers {
    ghost use Rattle.epic_policer.specs.Policing.{Policing};

    ghost Value = { Policing };

    ghost use Rattle.std.specs.Prelude.{◌≤◌, length};
    ghost use Rattle.epic_policer.specs.Table.{AreLike};

    ghost view = { λ p. record { policy = record { sources = p.sources.items; budget = p.budget; span_us = p.span_us }; latest = p.latest; entries = p.by_as.entries } };

    ghost invariant = { λ p. (length p.sources.items ≤ 4096) × AreLike (record { sources = p.sources.items; budget = p.budget; span_us = p.span_us }) p.latest p.by_as.entries };
}

impl Policers {
    /// No AS has a policer yet. Each will have these sources, 4,096 at most, and each source may have `budget` bytes passed at each
    /// AS within `span_us` microseconds. It takes no memory.
    pub fn new(alloc: Global, sources: Vec<AsId>, budget: u64, span_us: u64) -> Policers
        requires { length sources.items ≤ 4096 }
        ensures stand { StandFor result (record { sources = sources.items; budget = budget; span_us = span_us }) [] }
        ensures latest { result.latest ≡ 0 }
    {
        Policers {
            sources,
            budget,
            span_us,
            latest: 0,
            by_as: HashMap::new(alloc),
        }
    }

    /// The moment of the last offer that was answered, in microseconds, or 0 before the first.
    pub fn latest(&self) -> u64
        ensures { result ≡ self.now.latest }
    {
        self.latest
    }

    /// Offers a packet of a source, of `bytes` bytes, to the policer of the AS `at`, at `now`, in microseconds. The policer is made
    /// at the first offer. Out of memory, the packet wasn't offered, and all later answers are as if it never had been.
    pub fn offer(
        &mut self,
        alloc: Global,
        at: AsId,
        source: AsId,
        bytes: u32,
        now: u64,
    ) -> Result<Policed, OutOfMemory>
        requires { self.old.latest ≤ now }
        ensures answer { IfOk result (λ given. (policy : Policy) (offers : List Offer) → StandFor self.old policy offers → given ≡ said policy offers (record { at = at; packet = record { source = source; bytes = bytes; moment = now } })) }
        ensures stand { OnOk result ((policy : Policy) (offers : List Offer) → StandFor self.old policy offers → StandFor self.new policy (offers ++ record { at = at; packet = record { source = source; bytes = bytes; moment = now } } ∷ [])) }
        ensures latest { OnOk result (self.new.latest ≡ now) }

        // Out of memory, they stand for what they stood for.
        ensures kept { OnErr result ((policy : Policy) (offers : List Offer) → StandFor self.old policy offers → StandFor self.new policy offers) }
        ensures unmoved { OnErr result (self.new.latest ≡ self.old.latest) }
    {
        let packet = Packet {
            source,
            bytes,
            moment: now,
        };
        let given = ask(
            alloc,
            &mut self.by_as,
            &self.sources,
            self.budget,
            self.span_us,
            at,
            packet,
        )?;
        self.latest = now;
        Ok(given)
    }
}
