//! Rows of events by their keys.
ghost use Rattle.std.specs.Prelude.{◌≡◌, ◌+◌, ◌≤◌, [], ◌∷◌, ◌++◌, is_some, position, slice_get, option_and_then, OnOk};
ghost use Rattle.epic_index.specs.Numbered.{with_keys};

use crate::key::Key;
use crate::table::Table;
use std::alloc::{AllocError, Global};
use std::marker::Model;

/// The keys of rows, and the number of the event that each row is of.
#[derive(Drop)]
pub struct EventRows<K: Key> {
    table: Table<K>,
    numbers: Vec<u32>,
}

impl<K: Key> Model for EventRows<K> {
    ghost use Rattle.std.specs.Prelude.{◌-◌, length, min, vec_capacity};
    ghost use Rattle.epic_index.specs.Numbered.{Roomy};

    ghost Value = { Roomy K };

    ghost view = { λ r. record {
      rows = record { keys = r.table.keys; numbers = r.numbers.items };
      spare = min r.table.spare (vec_capacity r.numbers - length r.numbers.items);
    } };
}

impl<K: Key> EventRows<K> {
    pub fn new(alloc: Global) -> EventRows<K>
        ensures keys { result.rows.keys ≡ [] }
        ensures numbers { result.rows.numbers ≡ [] }
    {
        EventRows {
            table: Table::new(alloc),
            numbers: Vec::new(alloc),
        }
    }

    /// Makes room for so many more rows. Where there would be 2^31 rows, memory is wanting, too.
    pub fn reserve(&mut self, more: u32) -> Result<(), AllocError>
        ensures rows { self.new.rows ≡ self.old.rows }
        ensures spare { OnOk result (more ≤ self.new.spare) }
    {
        self.table.reserve(more)?;
        self.numbers.reserve(more as usize)?;
        Ok(())
    }

    /// Adds a row of the event of a number. It takes no memory.
    pub fn push(&mut self, key: K, number: u32)
        requires { 1 ≤ self.old.spare }
        ensures rows { self.new.rows ≡ with_keys self.old.rows number (key ∷ []) }
        ensures spare { self.old.spare ≤ self.new.spare + 1 }
    {
        self.table.push(key);
        self.numbers.push_reserved(number);
    }

    /// Whether there is a row of a key.
    pub fn has(&self, key: K) -> bool
        ensures { result ≡ is_some (position (λ k. K.eq key k) self.now.rows.keys) }
    {
        self.table.first(key).is_some()
    }

    /// The number of the event of the first row of a key.
    pub fn first(&self, key: K) -> Option<u32>
        ensures { result ≡ option_and_then (slice_get self.now.rows.numbers) (position (λ k. K.eq key k) self.now.rows.keys) }
    {
        match self.table.first(key) {
            Some(row) => self.numbers.get(row as usize).copied(),
            None => None,
        }
    }
}
