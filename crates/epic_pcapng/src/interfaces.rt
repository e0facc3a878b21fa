//! The interfaces of a section.
ghost use Rattle.std.specs.Prelude.{◌≡◌, ◌<◌, ◌≤◌, ℕ, List, [], ◌∷◌, ◌++◌, length, slice_get, IfOk, IfSome};
ghost use Rattle.epic_pcapng.specs.declared.interfaces.Interface.{Interface};

use epic_num::OutOfMemory;
use std::alloc::Global;
use std::marker::Model;

/// How many interfaces a section has at most.
pub(crate) const MOST_INTERFACES: usize = 1_024;

/// What packets of an interface are read by.
#[derive(Clone, Copy, Debug, PartialEq, Eq)]
pub struct Interface {
    /// How many units of time a second has.
    pub units: u64,
    /// How many bytes of a packet are captured at most; 0 for no limit.
    pub snaplen: u32,
}

/// At most 1,024 interfaces, in their order.
#[derive(Drop)]
pub struct Interfaces {
    items: Vec<Interface>,
}

impl Model for Interfaces {
    ghost use Rattle.std.specs.Prelude.{ℕ, ◌<◌, ◌≤◌, List, length, vec_capacity};
    ghost use Rattle.std.specs.List.{All};
    ghost use Rattle.epic_pcapng.specs.declared.interfaces.Interface.{Interface};

    ghost Value = { List Interface };

    ghost view = { λ l. l.items.items };

    ghost invariant = { λ l. (length l.items.items ≤ 1024) × (1024 ≤ vec_capacity l.items) × All (λ i. 0 < i.units) l.items.items };
}

impl Interfaces {
    /// No interface, and room for all.
    pub fn new(alloc: Global) -> Result<Interfaces, OutOfMemory>
        ensures { IfOk result (λ l. l ≡ []) }
    {
        match Vec::with_capacity(alloc, MOST_INTERFACES) {
            Ok(items) => Ok(Interfaces { items }),
            Err(_) => Err(OutOfMemory),
        }
    }

    /// How many there are.
    pub fn len(&self) -> usize
        ensures value { result ≡ length self.now }
        ensures few { length self.now ≤ 1024 }
    {
        self.items.len()
    }

    /// The interface of this number, from 0.
    pub fn get(&self, number: u32) -> Option<Interface>
        ensures value { result ≡ slice_get self.now number }
        ensures some { IfSome result (λ interface. 0 < interface.units) }
    {
        self.items.get(number as usize).copied()
    }

    /// One more.
    pub fn push(&mut self, interface: Interface)
        requires few { length self.old < 1024 }
        requires some { 0 < interface.units }
        ensures { self.new ≡ self.old ++ interface ∷ [] }
    {
        self.items.push_reserved(interface);
    }

    /// None any more.
    pub fn clear(&mut self)
        ensures { self.new ≡ [] }
    {
        self.items.clear();
    }
}
