//! What an index keeps beside the ledger: the rows by which it is searched.
ghost use Rattle.std.specs.Prelude.{◌≡◌, ◌+◌, ◌≤◌, [], ◌∷◌, ◌++◌, is_some, map, position, OnOk};
ghost use Rattle.epic_ledger.specs.Facts.{facts_of, issues_in, reveals_in};
ghost use Rattle.epic_index.specs.Twins.{twin_eq, twin_keys, HasKnownAs};
ghost use Rattle.epic_index.specs.Fields.{field_eq, AreIssuersKnown};
ghost use Rattle.epic_index.specs.Happened.{IsThere};
ghost use Rattle.epic_index.specs.Keys.{reveal_key, reveal_eq};
ghost use Rattle.epic_index.specs.Children.{child_eq};
ghost use Rattle.epic_index.specs.Likes.{like_eq};
ghost use Rattle.epic_index.specs.Numbered.{first_of};
ghost use Rattle.epic_index.specs.Origins.{origin_eq};
ghost use Rattle.epic_index.specs.Passes.{pass_eq};
ghost use Rattle.epic_index.specs.Sources.{source_eq};
ghost use Rattle.epic_index.specs.Holding.{with_rows};

use crate::children::{ChildKey, add_child};
use crate::event_rows::EventRows;
use crate::fields::{FieldKey, add_fields, add_update};
use crate::likes::{LikeKey, add_like};
use crate::origins::{OriginKey, add_origin, add_repeat};
use crate::passes::{PassKey, add_pass};
use crate::reveals::{RevealKey, add_reveal};
use crate::sources::{SourceKey, add_sources};
use crate::table::Table;
use crate::twins::{TwinKey, add_issue};
use epic_ledger::{Event, Ledger};
use epic_topo::Topology;
use std::alloc::{AllocError, Global};
use std::marker::Model;

/// How many rows of a table an event has at most: one for each hop of a packet.
const MAX_ROWS: u32 = 32;

/// The rows of each kind.
#[derive(Drop)]
pub struct Tables {
    pub reveals: Table<RevealKey>,
    pub twins: Table<TwinKey>,
    pub children: EventRows<ChildKey>,
    pub sources: EventRows<SourceKey>,
    pub likes: EventRows<LikeKey>,
    pub passes: EventRows<PassKey>,
    pub fields: EventRows<FieldKey>,
    pub updates: EventRows<FieldKey>,
    pub origins: EventRows<OriginKey>,
    pub again: Table<OriginKey>,
}

impl Model for Tables {
    ghost use Rattle.std.specs.Prelude.{min};
    ghost use Rattle.epic_index.specs.Holding.{Holding};

    ghost Value = { Holding };

    ghost view = { λ t. record {
      held = record { reveals = t.reveals.keys; twins = t.twins.keys; children = t.children.rows; sources = t.sources.rows; likes = t.likes.rows; passes = t.passes.rows; fields = t.fields.rows; updates = t.updates.rows; origins = t.origins.rows; again = t.again.keys };
      spare = min t.reveals.spare (min t.twins.spare (min t.children.spare (min t.sources.spare (min t.likes.spare (min t.passes.spare (min t.fields.spare (min t.updates.spare (min t.origins.spare t.again.spare))))))));
    } };
}

impl Tables {
    pub fn new(alloc: Global) -> Tables
        ensures reveals { result.held.reveals ≡ [] }
        ensures twins { result.held.twins ≡ [] }
        ensures children { result.held.children ≡ record { keys = []; numbers = [] } }
        ensures sources { result.held.sources ≡ record { keys = []; numbers = [] } }
        ensures likes { result.held.likes ≡ record { keys = []; numbers = [] } }
        ensures passes { result.held.passes ≡ record { keys = []; numbers = [] } }
        ensures fields { result.held.fields ≡ record { keys = []; numbers = [] } }
        ensures updates { result.held.updates ≡ record { keys = []; numbers = [] } }
        ensures origins { result.held.origins ≡ record { keys = []; numbers = [] } }
        ensures again { result.held.again ≡ [] }
    {
        Tables {
            reveals: Table::new(alloc),
            twins: Table::new(alloc),
            children: EventRows::new(alloc),
            sources: EventRows::new(alloc),
            likes: EventRows::new(alloc),
            passes: EventRows::new(alloc),
            fields: EventRows::new(alloc),
            updates: EventRows::new(alloc),
            origins: EventRows::new(alloc),
            again: Table::new(alloc),
        }
    }

    /// Makes room for one event more.
    pub fn reserve(&mut self) -> Result<(), AllocError>
        ensures held { self.new.held ≡ self.old.held }
        ensures spare { OnOk result (32 ≤ self.new.spare) }
    {
        self.reveals.reserve(MAX_ROWS)?;
        self.twins.reserve(MAX_ROWS)?;
        self.children.reserve(MAX_ROWS)?;
        self.sources.reserve(MAX_ROWS)?;
        self.likes.reserve(MAX_ROWS)?;
        self.passes.reserve(MAX_ROWS)?;
        self.fields.reserve(MAX_ROWS)?;
        self.updates.reserve(MAX_ROWS)?;
        self.origins.reserve(MAX_ROWS)?;
        self.again.reserve(MAX_ROWS)?;
        Ok(())
    }

    /// Adds the rows of the event of a number, which comes next. It takes no memory.
    pub fn add(&mut self, topo: &Topology, ledger: &Ledger, event: &Event, number: u32)
        requires room { 32 ≤ self.old.spare }
        requires known { HasKnownAs topo.now event.now }
        requires issuers { AreIssuersKnown topo.now (facts_of ledger.now.history).issues }
        requires there { IsThere ledger.now.history.emissions event.now }
        ensures { self.new.held ≡ with_rows topo.now ledger.now.history number event.now self.old.held }
    {
        add_reveal(&mut self.reveals, event);
        add_issue(&mut self.twins, topo, event);
        add_child(&mut self.children, ledger, event, number);
        add_sources(&mut self.sources, ledger, event, number);
        add_like(&mut self.likes, ledger, event, number);
        add_pass(&mut self.passes, topo, ledger, event, number);
        add_fields(&mut self.fields, topo, ledger, event, number);
        add_update(&mut self.updates, topo, ledger, event, number);
        add_repeat(&mut self.again, &self.origins, ledger, event);
        add_origin(&mut self.origins, ledger, event, number);
    }

    /// The first reveal of a key.
    pub fn first_reveal(&self, key: RevealKey) -> Option<u32>
        ensures { result ≡ position (λ k. reveal_eq key k) self.now.held.reveals }
    {
        self.reveals.first(key)
    }

    /// The first issue of a key, from 0.
    pub fn first_twin(&self, key: TwinKey) -> Option<u32>
        ensures { result ≡ position (λ k. twin_eq key k) self.now.held.twins }
    {
        self.twins.first(key)
    }

    /// The number of the event of the first issue of a key.
    pub fn first_child(&self, key: ChildKey) -> Option<u32>
        ensures { result ≡ first_of child_eq key self.now.held.children }
    {
        self.children.first(key)
    }

    /// The number of the event of the first hop of a key.
    pub fn first_source(&self, key: SourceKey) -> Option<u32>
        ensures { result ≡ first_of source_eq key self.now.held.sources }
    {
        self.sources.first(key)
    }

    /// The number of the event of the first sent packet of a key.
    pub fn first_like(&self, key: LikeKey) -> Option<u32>
        ensures { result ≡ first_of like_eq key self.now.held.likes }
    {
        self.likes.first(key)
    }

    /// The number of the event of the first accepted hop of a key.
    pub fn first_pass(&self, key: PassKey) -> Option<u32>
        ensures { result ≡ first_of pass_eq key self.now.held.passes }
    {
        self.passes.first(key)
    }

    /// The number of the event of the first field of a key.
    pub fn first_field(&self, key: FieldKey) -> Option<u32>
        ensures { result ≡ first_of field_eq key self.now.held.fields }
    {
        self.fields.first(key)
    }

    /// The number of the event of the first update of a key.
    pub fn first_update(&self, key: FieldKey) -> Option<u32>
        ensures { result ≡ first_of field_eq key self.now.held.updates }
    {
        self.updates.first(key)
    }

    /// The number of the event of the first sent packet of a key.
    pub fn first_origin(&self, key: OriginKey) -> Option<u32>
        ensures { result ≡ first_of origin_eq key self.now.held.origins }
    {
        self.origins.first(key)
    }

    /// Whether two sent packets have a key.
    pub fn is_repeated(&self, key: OriginKey) -> bool
        ensures { result ≡ is_some (position (λ k. origin_eq key k) self.now.held.again) }
    {
        self.again.first(key).is_some()
    }
}
