//! Rows by their keys.
ghost use Rattle.std.specs.Prelude.{◌≡◌, ◌+◌, ◌^◌, ◌<◌, ◌≤◌, [], ◌∷◌, ◌++◌, length, position, IfSome, IsOk, OnOk};

use crate::key::Key;
use epic_tree::{Aim, Tree};
use std::alloc::{AllocError, Global};
use std::cmp::Ordering;
use std::marker::Model;

/// How many rows a table has at most.
const MAX_ROWS: u64 = 0x7fff_ffff;

/// A key that is sought among the keys of rows.
#[derive(Drop)]
struct Sought<'a, K> {
    keys: &'a [K],
    key: K,
}

impl<K: Key> Aim for Sought<'_, K> {
    ghost use Rattle.std.specs.Prelude.{◌<◌, length};
    ghost use Rattle.epic_tree.specs.Index.{key_side};

    ghost knows = { λ s p. p < length s.keys.now };

    ghost side = { λ s p. key_side K.cmp s.key s.keys.now s.key p };

    ghost tag = { λ s. K.tag s.key };

    fn side(&self, at: u32) -> Ordering {
        self.key.cmp(&self.keys[at as usize])
    }

    fn tag(&self) -> u32 {
        self.key.tag()
    }
}

/// The keys of rows, in the order in which they came, and a tree that finds the first row of each.
#[derive(Drop)]
pub struct Table<K: Key> {
    keys: Vec<K>,
    tree: Tree,
}

impl<K: Key> Model for Table<K> {
    ghost use Rattle.std.specs.Prelude.{◌-◌, length, min, vec_capacity};
    ghost use Rattle.epic_index.specs.Rows.{Rows, IsTable};

    ghost Value = { Rows K };

    ghost view = { λ t. record {
      keys = t.keys.items;
      spare = min (vec_capacity t.keys - length t.keys.items) t.tree.spare;
    } };

    ghost invariant = { λ t. IsTable K.cmp K.tag t.keys.items t.tree };
}

impl<K: Key> Table<K> {
    pub fn new(alloc: Global) -> Table<K>
        ensures { result.keys ≡ [] }
    {
        Table {
            keys: Vec::new(alloc),
            tree: Tree::new(alloc),
        }
    }

    /// Makes room for so many more rows. Where the table would have 2^31 rows, memory is wanting, too.
    pub fn reserve(&mut self, more: u32) -> Result<(), AllocError>
        ensures keys { self.new.keys ≡ self.old.keys }
        ensures spare { OnOk result (more ≤ self.new.spare) }
        ensures kept { self.old.spare ≤ self.new.spare }
    {
        if self.tree.len() as u64 + more as u64 > MAX_ROWS {
            return Err(AllocError);
        }
        self.keys.reserve(more as usize)?;
        self.tree.reserve(more)?;
        Ok(())
    }

    /// Adds a row. It takes no memory.
    pub fn push(&mut self, key: K)
        requires { 1 ≤ self.old.spare }
        ensures keys { self.new.keys ≡ self.old.keys ++ key ∷ [] }
        ensures spare { self.old.spare ≤ self.new.spare + 1 }
    {
        let sought = Sought {
            keys: self.keys.as_slice(),
            key,
        };
        self.tree.add(&sought);
        self.keys.push_reserved(key);
    }

    /// The first row of a key, from 0.
    pub fn first(&self, key: K) -> Option<u32>
        ensures value { result ≡ position (λ k. K.eq key k) self.now.keys }
        ensures within { IfSome result (λ row. row < length self.now.keys) }
    {
        let sought = Sought {
            keys: self.keys.as_slice(),
            key,
        };
        self.tree.find(&sought)
    }
}
