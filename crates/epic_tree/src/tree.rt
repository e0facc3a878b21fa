//! A balanced tree of places.
ghost use Rattle.std.specs.Prelude.{◌≡◌, ◌==◌, ℕ, ◌+◌, ◌^◌, ◌<◌, ◌≤◌, [], ◌∷◌, ◌++◌, length, IsOk, OnOk};
ghost use Rattle.epic_tree.specs.Sides.{IsCut, by_tag, found, put};

use crate::Aim;
use crate::arena::{MAX_NODES, NIL, Node};
use crate::insert::attach;
use crate::search::find_under;
use std::alloc::{AllocError, Global};
use std::marker::Model;

/// Places from 0 on, in an order that whoever adds them says. The heights of two siblings differ by at
/// most one.
#[derive(Drop)]
pub struct Tree {
    nodes: Vec<Node>,
    root: u32,
}

impl Model for Tree {
    ghost use Rattle.std.specs.Prelude.{◌-◌, length, min, vec_capacity};
    ghost use Rattle.epic_tree.specs.Sides.{Ordered};
    ghost use Rattle.epic_tree.specs.Shapes.{places};
    ghost use Rattle.epic_tree.specs.Arena.{shape, tags_of, IsKept};
    ghost use Rattle.epic_tree.specs.declared.arena.TheConstants.{MAX_NODES};

    ghost Value = { Ordered };

    ghost view = { λ t. record {
      places = places (shape t.nodes.items t.root);
      tags = tags_of t.nodes.items;
      spare = min (vec_capacity t.nodes) MAX_NODES - length t.nodes.items;
    } };

    ghost invariant = { λ t. IsKept t.nodes.items t.root };
}

impl Tree {
    pub fn new(alloc: Global) -> Tree
        ensures places { result.places ≡ [] }
        ensures tags { result.tags ≡ [] }
    {
        Tree {
            nodes: Vec::new(alloc),
            root: NIL,
        }
    }

    /// How many places there are, in the order or not.
    pub fn len(&self) -> u32
        ensures { result ≡ length self.now.tags }
    {
        self.nodes.len() as u32
    }

    pub fn is_empty(&self) -> bool
        ensures { result ≡ (length self.now.tags == 0) }
    {
        self.nodes.is_empty()
    }

    /// For how many more places there is room.
    pub fn spare(&self) -> u32
        ensures { result ≡ self.now.spare }
    {
        (self.nodes.capacity().min(MAX_NODES) - self.nodes.len()) as u32
    }

    /// Makes room for so many more places.
    pub fn reserve(&mut self, more: u32) -> Result<(), AllocError>
        requires few { length self.old.tags + more < 2 ^ 31 }
        ensures spare { OnOk result (more ≤ self.new.spare) }

        // It fails only where there wasn't room already.
        ensures succeeds { more ≤ self.old.spare → IsOk result }

        // Whatever the result, nothing else changes, and no room is lost.
        ensures places { self.new.places ≡ self.old.places }
        ensures tags { self.new.tags ≡ self.old.tags }
        ensures kept { self.old.spare ≤ self.new.spare }
    {
        self.nodes.reserve(more as usize)?;
        Ok(())
    }

    /// The place where what is sought stands, among those in the order.
    pub fn find<S: Aim>(&self, aim: &S) -> Option<u32>
        requires cut { IsCut (by_tag self.now.tags (S.tag aim.now) (S.side aim.now)) self.now.places }
        requires known { (p : ℕ) → p < length self.now.tags → S.knows aim.now p }
        ensures { result ≡ found (by_tag self.now.tags (S.tag aim.now) (S.side aim.now)) self.now.places }
    {
        find_under(self.nodes.as_slice(), self.root, aim)
    }

    /// Adds the next place. It comes into the order where what is sought stands, unless another place
    /// stands there. It takes no memory.
    pub fn add<S: Aim>(&mut self, aim: &S)
        requires room { 1 ≤ self.old.spare }
        requires cut { IsCut (by_tag self.old.tags (S.tag aim.now) (S.side aim.now)) self.old.places }
        requires known { (p : ℕ) → p < length self.old.tags → S.knows aim.now p }
        ensures places { self.new.places ≡
            put (by_tag self.old.tags (S.tag aim.now) (S.side aim.now)) (length self.old.tags) self.old.places }
        ensures tags { self.new.tags ≡ self.old.tags ++ S.tag aim.now ∷ [] }
        ensures spare { self.old.spare ≤ self.new.spare + 1 }
    {
        self.root = attach(&mut self.nodes, self.root, aim);
    }
}
