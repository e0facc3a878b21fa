//! The events of a kind, by their numbers and in a tree.
ghost use Rattle.std.specs.Prelude.{◌≡◌, ◌+◌, ◌^◌, ◌<◌, ◌≤◌, [], length, IsOk, OnOk};
ghost use Rattle.epic_ledger.specs.Indexes.{room_in};

use epic_tree::Tree;
use std::alloc::{AllocError, Global};

/// The numbers of the events of a kind, and a tree over what they are sought by.
#[derive(Drop)]
pub struct Index {
    pub at: Vec<u32>,
    pub keys: Tree,
}

impl Index {
    pub fn new(alloc: Global) -> Index
        ensures at { result.at.items ≡ [] }
        ensures places { result.keys.places ≡ [] }
        ensures tags { result.keys.tags ≡ [] }
    {
        Index {
            at: Vec::new(alloc),
            keys: Tree::new(alloc),
        }
    }

    /// For how many more events of the kind there is room.
    pub fn spare(&self) -> u32
        ensures { result ≡ room_in self.now }
    {
        (self.at.capacity() - self.at.len()).min(self.keys.spare() as usize) as u32
    }

    /// Makes room for so many more events of the kind.
    pub fn reserve(&mut self, more: u32) -> Result<(), AllocError>
        requires { length self.old.keys.tags + more < 2 ^ 31 }
        ensures at { self.new.at.items ≡ self.old.at.items }
        ensures places { self.new.keys.places ≡ self.old.keys.places }
        ensures tags { self.new.keys.tags ≡ self.old.keys.tags }
        ensures spare { OnOk result (more ≤ room_in self.new) }
        ensures succeeds { more ≤ room_in self.old → IsOk result }
        ensures kept { room_in self.old ≤ room_in self.new }
    {
        self.at.reserve(more as usize)?;
        self.keys.reserve(more)?;
        Ok(())
    }
}
