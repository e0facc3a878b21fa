//! The pool: what stands in it, and its calls.
ghost use Rattle.std.specs.Prelude.{◌≡◌, ℕ, ◌+◌, ◌<◌, ◌≤◌, List, [], ◌∷◌, ◌++◌, length, replicate, Some, None, is_some, IsSome, IsOk, IfOk, IfErr, OnOk, OnErr, slice_set};
ghost use Rattle.std.specs.List.{All, Any, Contains};
ghost use Rattle.epic_pool.specs.Pool.{value_of, list_of, appended, without, first_of};

use crate::family::Links;
use crate::room::{make_room, nothing};
use epic_num::OutOfMemory;
use std::alloc::Global;
use std::marker::Model;

/// There is no room: the value comes back.
#[derive(Drop)]
pub struct Full<T>(pub T);

/// Nodes with values, each in one list of either of two families.
#[derive(Drop)]
pub struct Pool<T> {
    a: Links,
    b: Links,
    values: Vec<Option<T>>,
    base: u32,
    lists_a: u32,
    lists_b: u32,
    spare: u32,
}

impl<T> Model for Pool<T> {
    ghost use Rattle.epic_pool.specs.Pool.{PoolState, pool_code};
    ghost use Rattle.epic_pool.specs.Inside.{lists_of, IsCounted};

    ghost Value = { PoolState T };

    ghost coded = { pool_code T.code };

    ghost view = { λ p. record { a = lists_of p.base p.a.next.items p.lists_a; b = lists_of p.base p.b.next.items p.lists_b; values = p.values.items; spare = p.spare } };

    ghost invariant = { λ p. IsCounted p.base p.lists_a p.lists_b p.spare p.a.next.items p.a.prev.items p.b.next.items p.b.prev.items p.values.items };
}

impl<T: Drop> Pool<T> {
    /// A pool of so many lists of the first and of the second family, all empty, without room.
    pub fn new(alloc: Global, lists_a: u32, lists_b: u32) -> Result<Pool<T>, OutOfMemory>
        ensures a { IfOk result (λ pool. pool.a ≡ replicate lists_a []) }
        ensures b { IfOk result (λ pool. pool.b ≡ replicate lists_b []) }
        ensures values { IfOk result (λ pool. (node : ℕ) → value_of pool node ≡ None) }
        ensures spare { IfOk result (λ pool. pool.spare ≡ 0) }
    {
        let most = lists_a.max(lists_b);
        if most >= u32::MAX {
            return Err(OutOfMemory);
        }
        let base = most + 1;
        let a = Links::alone(alloc, base)?;
        let b = Links::alone(alloc, base)?;
        let values = nothing(alloc, base)?;
        Ok(Pool {
            a,
            b,
            values,
            base,
            lists_a,
            lists_b,
            spare: 0,
        })
    }

    // One more unused node.
    fn add(&mut self) -> Result<(), OutOfMemory>
        ensures a { self.new.a ≡ self.old.a }
        ensures b { self.new.b ≡ self.old.b }
        ensures values { (node : ℕ) → value_of self.new node ≡ value_of self.old node }
        ensures spare { OnOk result (self.new.spare ≡ self.old.spare + 1) }
        ensures kept { OnErr result (self.new.spare ≡ self.old.spare) }
    {
        let node = self.values.len();
        if node >= u32::MAX as usize {
            return Err(OutOfMemory);
        }
        if make_room(&mut self.a, &mut self.b, &mut self.values).is_err() {
            return Err(OutOfMemory);
        }
        self.values.push_reserved(None);
        self.a.grow(self.base, node as u32);
        self.b.grow(self.base, node as u32);
        self.a.link(self.base, self.lists_a, node as u32);
        self.spare += 1;
        Ok(())
    }

    /// Makes room for so many more nodes. Out of memory, some of the room may have grown.
    pub fn reserve(&mut self, n: u32) -> Result<(), OutOfMemory>
        ensures room { OnOk result (n ≤ self.new.spare) }

        // It fails only where there wasn't room already.
        ensures succeeds { n ≤ self.old.spare → IsOk result }

        // Whatever the result, no list and no value changes, and no room is lost.
        ensures a { self.new.a ≡ self.old.a }
        ensures b { self.new.b ≡ self.old.b }
        ensures values { (node : ℕ) → value_of self.new node ≡ value_of self.old node }
        ensures kept { self.old.spare ≤ self.new.spare }
    {
        for _ in self.spare..n {
            self.add()?;
        }
        Ok(())
    }

    /// For how many more nodes there is room.
    pub fn spare(&self) -> u32
        ensures { result ≡ self.now.spare }
    {
        self.spare
    }

    /// Puts a value at the end of a list of either family, and answers its node.
    pub fn insert(&mut self, a: u32, b: u32, value: T) -> Result<u32, Full<T>>
        requires a { a < length self.old.a }
        requires b { b < length self.old.b }
        ensures new { IfOk result (λ node. value_of self.old node ≡ None) }
        ensures live { IfOk result (λ node. value_of self.new node ≡ Some value) }
        ensures a { IfOk result (λ node. self.new.a ≡ appended self.old.a a node) }
        ensures b { IfOk result (λ node. self.new.b ≡ appended self.old.b b node) }
        ensures values { IfOk result (λ node. self.new.values ≡ slice_set self.old.values node (Some value)) }
        ensures spare { OnOk result (self.old.spare ≡ self.new.spare + 1) }

        // It fails exactly where there is no room, and changes nothing then.
        ensures full { OnErr result (self.old.spare ≡ 0) }
        ensures unchanged { OnErr result (self.new ≡ self.old) }
        ensures value_returned { IfErr result (λ full. full.0 ≡ value) }
    {
        match self.a.after(self.base, self.lists_a) {
            None => Err(Full(value)),
            Some(node) => {
                self.a.unlink(self.base, node);
                self.a.link(self.base, a, node);
                self.b.link(self.base, b, node);
                self.spare -= 1;
                self.values[node as usize] = Some(value);
                Ok(node)
            }
        }
    }

    /// Takes a live node out of both its lists, and answers its value.
    pub fn remove(&mut self, node: u32) -> T
        requires { IsSome (value_of self.old node) }
        ensures value { value_of self.old node ≡ Some result }
        ensures a { self.new.a ≡ without node self.old.a }
        ensures b { self.new.b ≡ without node self.old.b }
        ensures values { self.new.values ≡ slice_set self.old.values node None }
        ensures spare { self.new.spare ≡ self.old.spare + 1 }
    {
        self.a.unlink(self.base, node);
        self.b.unlink(self.base, node);
        self.a.link(self.base, self.lists_a, node);
        self.spare += 1;
        match self.values[node as usize].take() {
            Some(value) => value,
            None => unreachable!(),
        }
    }

    /// Whether a node has a value.
    pub fn is_live(&self, node: u32) -> bool
        ensures { result ≡ is_some (value_of self.now node) }
    {
        (node as usize) < self.values.len() && self.values[node as usize].is_some()
    }

    /// The value of a live node.
    pub fn get(&self, node: u32) -> &T
        requires { IsSome (value_of self.now node) }
        ensures { value_of self.now node ≡ Some result.now }
    {
        match &self.values[node as usize] {
            Some(value) => value,
            None => unreachable!(),
        }
    }

    /// The first node of a list of the first family.
    pub fn first_a(&self, a: u32) -> Option<u32>
        requires { a < length self.now.a }
        ensures value { result ≡ first_of (list_of self.now.a a) }

        // The nodes of all lists are live.
        ensures live { (l : ℕ) → l < length self.now.a → All (λ node. IsSome (value_of self.now node)) (list_of self.now.a l) }
    {
        self.a.after(self.base, a)
    }

    /// The node after a live one in its list of the first family: none exactly where the node is the last.
    pub fn next_a(&self, node: u32) -> Option<u32>
        requires { IsSome (value_of self.now node) }
        ensures listed { Any (λ l. Contains l node) self.now.a }
        ensures value { (l : ℕ) (xs ys : List ℕ) → l < length self.now.a → list_of self.now.a l ≡ xs ++ node ∷ ys → result ≡ first_of ys }
    {
        self.a.after(self.base, node)
    }

    /// The first node of a list of the second family.
    pub fn first_b(&self, b: u32) -> Option<u32>
        requires { b < length self.now.b }
        ensures value { result ≡ first_of (list_of self.now.b b) }
        ensures live { (l : ℕ) → l < length self.now.b → All (λ node. IsSome (value_of self.now node)) (list_of self.now.b l) }
    {
        self.b.after(self.base, b)
    }

    /// The node after a live one in its list of the second family: none exactly where the node is the last.
    pub fn next_b(&self, node: u32) -> Option<u32>
        requires { IsSome (value_of self.now node) }
        ensures listed { Any (λ l. Contains l node) self.now.b }
        ensures value { (l : ℕ) (xs ys : List ℕ) → l < length self.now.b → list_of self.now.b l ≡ xs ++ node ∷ ys → result ≡ first_of ys }
    {
        self.b.after(self.base, node)
    }
}
