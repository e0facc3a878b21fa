//! The index.
ghost use Rattle.std.specs.Prelude.{◌≡◌, ◌<◌, ◌≤◌, ◌^◌, [], ◌∷◌, length, None, OnOk, OnErr};
ghost use Rattle.epic_num.specs.Levels.{is_first_byte};
ghost use Rattle.epic_layout.specs.Layout.{fault};
ghost use Rattle.epic_ledger.specs.Facts.{issues_in};
ghost use Rattle.epic_ledger.specs.Lawful.{Fits, IsLawful};
ghost use Rattle.epic_index.specs.Twins.{HasKnownAs};
ghost use Rattle.epic_ledger.specs.OneMore.{with_event, with_emission};

use crate::sent_as::{SentTree, add_sent};
use crate::step::{at_start, step_of};
use crate::tables::Tables;
use epic_ledger::{Event, Ledger};
use epic_num::{OutOfMemory, Place};
use epic_topo::Topology;
use std::alloc::Global;
use std::marker::Model;

/// How many events an index holds at most.
const MAX_EVENTS: u64 = 0x7fff_ffff;

/// How many emissions it holds at most.
const MAX_EMISSIONS: u64 = 0x7fff_ffff;

/// How many bytes its emissions have at most.
const MAX_BYTES: u64 = 0x3fff_ffff;

/// What the lines of a ledger file say, and the first of each kind. The ledger wants steps that don't fall, which a
/// file's may: so its events stand at step 0, and their steps apart.
#[derive(Drop)]
pub struct Index<'a> {
    pub(crate) topo: &'a Topology,
    pub(crate) ledger: Ledger,
    pub(crate) steps: Vec<u32>,
    pub(crate) tables: Tables,
    pub(crate) sent: SentTree,
}

impl<'a> Model for Index<'a> {
    ghost use Rattle.epic_index.specs.Indexes.{Indexed, history_of, IsWholeIndex};

    ghost Value = { Indexed };

    ghost view = { λ x. record { network = x.topo.now; history = history_of x.ledger.history x.steps.items } };

    ghost invariant = { λ x. IsWholeIndex x.topo.now x.ledger.history x.steps.items x.tables.held x.sent };
}

/// Makes room for so many more events, emissions and emitted bytes. Where the ledger would have more than it holds,
/// memory is wanting, too.
fn make_room(
    ledger: &mut Ledger,
    events: u32,
    emissions: u32,
    bytes: u64,
) -> Result<(), OutOfMemory>
    ensures history { ledger.new.history ≡ ledger.old.history }
    ensures events { OnOk result (events ≤ ledger.new.spare.events) }
    ensures emissions { OnOk result (emissions ≤ ledger.new.spare.emissions) }
    ensures bytes { OnOk result (bytes ≤ ledger.new.spare.bytes) }
    ensures few { OnOk result (length ledger.old.history.events < 2 ^ 31) }
{
    if ledger.events() > MAX_EVENTS || ledger.emitted() > MAX_BYTES || bytes > MAX_BYTES {
        return Err(OutOfMemory);
    }
    if ledger.events() + events as u64 > MAX_EVENTS
        || ledger.emissions() as u64 + emissions as u64 > MAX_EMISSIONS
        || ledger.emitted() + bytes > MAX_BYTES
    {
        return Err(OutOfMemory);
    }
    ledger.reserve(events, emissions, bytes)
}

/// The number of the event that comes next.
fn next_number(ledger: &Ledger) -> u32
    requires { length ledger.now.history.events < 2 ^ 31 }
    ensures value { result ≡ length ledger.now.history.events }
    ensures lawful { IsLawful ledger.now.history }
{
    ledger.events() as u32
}

impl<'a> Index<'a> {
    /// An index of nothing.
    pub fn new(topo: &'a Topology, alloc: Global) -> Index<'a>
        ensures network { result.network ≡ topo.now }
        ensures events { result.history.events ≡ [] }
        ensures emissions { result.history.emissions ≡ [] }
    {
        Index {
            topo,
            ledger: Ledger::new(alloc),
            steps: Vec::new(alloc),
            tables: Tables::new(alloc),
            sent: SentTree::new(alloc),
        }
    }

    /// Adds an emission.
    pub fn add_emission(&mut self, place: Place, bytes: &[u8]) -> Result<(), OutOfMemory>
        requires faultless { fault is_first_byte bytes.now ≡ None }
        ensures network { self.new.network ≡ self.old.network }
        ensures history { OnOk result (self.new.history ≡ with_emission self.old.history (record { place = place; bytes = bytes.now })) }
        ensures kept { OnErr result (self.new.history ≡ self.old.history) }
    {
        make_room(&mut self.ledger, 0, 1, bytes.len() as u64)?;
        let _events = self.ledger.events();
        self.ledger.emit(place, bytes);
        Ok(())
    }

    /// Adds an event. The AS of an issue, and of an accepted hop, is of the topology.
    pub fn add_event(&mut self, event: Event) -> Result<(), OutOfMemory>
        requires fits { Fits self.old.history.emissions (issues_in self.old.history.events) event }
        requires known { HasKnownAs self.old.network event }
        ensures network { self.new.network ≡ self.old.network }
        ensures history { OnOk result (self.new.history ≡ with_event self.old.history event) }
        ensures kept { OnErr result (self.new.history ≡ self.old.history) }
    {
        make_room(&mut self.ledger, 1, 0, 0)?;
        if self.steps.reserve(1).is_err() {
            return Err(OutOfMemory);
        }
        if self.tables.reserve().is_err() {
            return Err(OutOfMemory);
        }
        if self.sent.reserve().is_err() {
            return Err(OutOfMemory);
        }
        let number = next_number(&self.ledger);
        self.tables.add(self.topo, &self.ledger, &event, number);
        self.steps.push_reserved(step_of(&event));
        let event = at_start(event);
        add_sent(&mut self.sent, &self.ledger, &event, number);
        self.ledger.push(event);
        Ok(())
    }
}
