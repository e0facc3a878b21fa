//! The ledger: its events, its emissions and what finds the first of a kind.
ghost use Rattle.std.specs.Prelude.{◌≡◌, ◌+◌, ◌^◌, ◌<◌, ◌≤◌, [], ◌∷◌, ◌++◌, length, option_map, slice_get, None, IsOk, OnOk};
ghost use Rattle.std.specs.Option.{option_copied};
ghost use Rattle.epic_num.specs.Chains.{issue_at};
ghost use Rattle.epic_num.specs.Levels.{is_first_byte};
ghost use Rattle.epic_layout.specs.Layout.{fault, parse};
ghost use Rattle.epic_ledger.specs.History.{Emission, emission_at, emitted, step_of};
ghost use Rattle.epic_ledger.specs.Facts.{facts_of, issues_in};
ghost use Rattle.epic_ledger.specs.Queries as queries;
ghost use Rattle.epic_ledger.specs.Lawful.{Fits, IsLast, IsLawful};

use crate::Event;
use crate::emissions::Emissions;
use crate::index::Index;
use crate::log::Log;
use crate::pass_index::add_pass;
use crate::path_index::add_path;
use crate::reveal_index::add_reveal;
use crate::send_index::add_send;
use epic_num::{HopName, OutOfMemory, Place};
use epic_view::PacketRef;
use std::alloc::Global;
use std::marker::Model;

/// What happened, in order, and the packets that are under way. Events are numbered from 0, issues and emissions from 1.
#[derive(Drop)]
pub struct Ledger {
    pub(crate) log: Log,
    pub(crate) emissions: Emissions,
    pub(crate) sends: Index,
    pub(crate) passes: Index,
    pub(crate) paths: Index,
    pub(crate) reveals: Index,
}

impl Model for Ledger {
    ghost use Rattle.epic_ledger.specs.Recorded.{Recorded};

    ghost Value = { Recorded };

    ghost use Rattle.std.specs.Prelude.{min};
    ghost use Rattle.epic_ledger.specs.Indexes.{IsRecorded, room_in};

    ghost view = { λ l. record {
      history = record { events = l.log.events; emissions = l.emissions.emissions };
      spare = record {
        events = min (min (min (min l.log.spare (room_in l.sends)) (room_in l.passes)) (room_in l.paths)) (room_in l.reveals);
        emissions = l.emissions.spare;
        bytes = l.emissions.byte_spare;
      };
    } };

    ghost invariant = { λ l. IsRecorded l.log.events l.emissions.emissions l.sends l.passes l.paths l.reveals };
}

impl Ledger {
    /// A ledger in which nothing is recorded. It takes no memory.
    pub fn new(alloc: Global) -> Ledger
        ensures events { result.history.events ≡ [] }
        ensures emissions { result.history.emissions ≡ [] }
    {
        Ledger {
            log: Log::new(alloc),
            emissions: Emissions::new(alloc),
            sends: Index::new(alloc),
            passes: Index::new(alloc),
            paths: Index::new(alloc),
            reveals: Index::new(alloc),
        }
    }

    /// Makes room for so many more events, emissions and emitted bytes. Where memory is wanting, some of the room may
    /// have grown.
    pub fn reserve(&mut self, events: u32, emissions: u32, bytes: u64) -> Result<(), OutOfMemory>
        requires few_events { length self.old.history.events + events < 2 ^ 31 }
        requires few_emissions { length self.old.history.emissions + emissions < 2 ^ 31 }
        requires few_bytes { emitted self.old.history.emissions + bytes < 2 ^ 30 }

        ensures events { OnOk result (events ≤ self.new.spare.events) }
        ensures emissions { OnOk result (emissions ≤ self.new.spare.emissions) }
        ensures bytes { OnOk result (bytes ≤ self.new.spare.bytes) }

        // It fails only where there wasn't room already.
        ensures succeeds { events ≤ self.old.spare.events → emissions ≤ self.old.spare.emissions → bytes ≤ self.old.spare.bytes → IsOk result }

        // Whatever the result, nothing else changes, and no room is lost.
        ensures history { self.new.history ≡ self.old.history }
        ensures events_kept { self.old.spare.events ≤ self.new.spare.events }
        ensures emissions_kept { self.old.spare.emissions ≤ self.new.spare.emissions }
        ensures bytes_kept { self.old.spare.bytes ≤ self.new.spare.bytes }
    {
        if self.log.reserve(events).is_err() {
            return Err(OutOfMemory);
        }
        if self.emissions.reserve(emissions, bytes).is_err() {
            return Err(OutOfMemory);
        }
        if self.sends.reserve(events).is_err() {
            return Err(OutOfMemory);
        }
        if self.passes.reserve(events).is_err() {
            return Err(OutOfMemory);
        }
        if self.paths.reserve(events).is_err() {
            return Err(OutOfMemory);
        }
        if self.reveals.reserve(events).is_err() {
            return Err(OutOfMemory);
        }
        Ok(())
    }

    /// For how many more events, emissions and emitted bytes there is room.
    pub fn spare(&self) -> (u32, u32, u64)
        ensures value { result ≡ (self.now.spare.events, self.now.spare.emissions, self.now.spare.bytes) }
        ensures lawful { IsLawful self.now.history }
    {
        (
            self.log
                .spare()
                .min(self.sends.spare())
                .min(self.passes.spare())
                .min(self.paths.spare())
                .min(self.reveals.spare()),
            self.emissions.spare(),
            self.emissions.byte_spare(),
        )
    }

    /// Records an event. It takes no memory.
    pub fn push(&mut self, event: Event)
        requires room { 1 ≤ self.old.spare.events }
        requires fits { Fits self.old.history.emissions (issues_in self.old.history.events) event }
        requires last { IsLast self.old.history.events (step_of event) }

        ensures events { self.new.history.events ≡ self.old.history.events ++ event ∷ [] }
        ensures emissions { self.new.history.emissions ≡ self.old.history.emissions }
        ensures spare { self.old.spare.events ≤ self.new.spare.events + 1 }
        ensures emissions_spare { self.new.spare.emissions ≡ self.old.spare.emissions }
        ensures bytes_spare { self.new.spare.bytes ≡ self.old.spare.bytes }
    {
        add_send(&mut self.sends, self.log.events(), &self.emissions, &event);
        add_pass(&mut self.passes, self.log.events(), &self.emissions, &event);
        add_path(&mut self.paths, self.log.events(), &self.emissions, &event);
        add_reveal(&mut self.reveals, self.log.events(), &event);
        self.log.push(event);
    }

    /// Records the bytes of a packet that is due at a place, and answers the emission's number. It takes no memory.
    pub fn emit(&mut self, place: Place, bytes: &[u8]) -> u32
        requires room { 1 ≤ self.old.spare.emissions }
        requires bytes_room { length bytes.now ≤ self.old.spare.bytes }
        requires faultless { fault is_first_byte bytes.now ≡ None }

        ensures number { result ≡ length self.old.history.emissions + 1 }
        ensures emissions { self.new.history.emissions ≡ self.old.history.emissions ++ record { place = place; bytes = bytes.now } ∷ [] }
        ensures events { self.new.history.events ≡ self.old.history.events }
        ensures spare { self.old.spare.emissions ≤ self.new.spare.emissions + 1 }
        ensures bytes_spare { self.old.spare.bytes ≤ self.new.spare.bytes + length bytes.now }
        ensures events_spare { self.new.spare.events ≡ self.old.spare.events }
    {
        self.emissions.push(place, bytes)
    }

    /// How many events there are.
    pub fn events(&self) -> u64
        ensures value { result ≡ length self.now.history.events }
        ensures lawful { IsLawful self.now.history }
    {
        self.log.len() as u64
    }

    /// The event of a number, from 0.
    pub fn event(&self, no: u64) -> Option<&Event>
        ensures { option_copied result ≡ slice_get self.now.history.events no }
    {
        self.log.events().get(no as usize)
    }

    /// How many emissions there are.
    pub fn emissions(&self) -> u32
        ensures { result ≡ length self.now.history.emissions }
    {
        self.emissions.len()
    }

    /// How many bytes all emissions have.
    pub fn emitted(&self) -> u64
        ensures { result ≡ emitted self.now.history.emissions }
    {
        self.emissions.total()
    }

    /// The place and the bytes of the emission of a number, from 1.
    pub fn emission(&self, no: u32) -> Option<(Place, &[u8])>
        ensures { option_map {U = Emission} (λ e. record { place = e.0; bytes = e.1.now }) result ≡ emission_at self.now.history.emissions no }
    {
        self.emissions.get(no)
    }

    /// The packet of the emission of a number, from 1.
    pub fn packet(&self, no: u32) -> Option<PacketRef<'_>>
        ensures { result ≡ option_map (λ e. parse e.bytes) (emission_at self.now.history.emissions no) }
    {
        self.emissions.packet(no)
    }

    /// How many issues there are.
    #[tactic(auto, unfolding(crate::specs::Facts::facts_of))]
    pub fn issues(&self) -> u32
        ensures { result ≡ length (facts_of self.now.history).issues }
    {
        self.log.issues()
    }

    /// The name of the issue of a number, from 1, and the number of the issue that it goes on from, 0 for none.
    #[tactic(auto, unfolding(crate::specs::Facts::facts_of))]
    pub fn issue(&self, no: u32) -> Option<(HopName, u32)>
        ensures { result ≡ option_map (λ i. (i.name, i.parent)) (issue_at (facts_of self.now.history).issues no) }
    {
        self.log.issue(no)
    }

    /// The number of the first issue of a name, from 1.
    #[tactic(auto, unfolding(crate::specs::Facts::facts_of))]
    pub fn issue_of(&self, name: &HopName) -> Option<u32>
        ensures { result ≡ queries.issue_of (facts_of self.now.history).issues name.now }
    {
        self.log.issue_of(name)
    }
}
