//! A list of keys with a tree over it, and what is found in it.
ghost use Rattle.std.specs.Prelude.{◌≡◌, ◌+◌, ◌^◌, ◌<◌, [], ◌∷◌, ◌++◌, length, position, OnOk};
ghost use Rattle.std.specs.Ordering.{is_eq, nat_cmp};

use super::*;
use std::alloc::{AllocError, Global};
use std::cmp::Ordering;
use std::marker::Model;
use std::process::Abort;
use std::test::Fail;

/// A key that is sought in a list of keys. Its tag is its last digit.
#[derive(Drop)]
struct Sought<'a> {
    keys: &'a [u32],
    key: u32,
}

impl Aim for Sought<'_> {
    ghost use Rattle.std.specs.Prelude.{ℕ, ◌%◌, ◌<◌, length, slice_index};
    ghost use Rattle.std.specs.Ordering.{nat_cmp};

    ghost knows = { λ s p. p < length s.keys.now };

    ghost side = { λ s p. nat_cmp s.key (slice_index s.keys.now p) };

    ghost tag = { λ s. s.key % 10 };

    fn side(&self, at: u32) -> Ordering {
        self.key.cmp(&self.keys[at as usize])
    }

    fn tag(&self) -> u32 {
        self.key % 10
    }
}

/// Keys in the order in which they came.
#[derive(Drop)]
struct Keyed {
    keys: Vec<u32>,
    tree: Tree,
}

impl Model for Keyed {
    ghost use Rattle.std.specs.Prelude.{ℕ, List, ◌%◌};
    ghost use Rattle.std.specs.Ordering.{nat_cmp};
    ghost use Rattle.epic_tree.specs.Index.{IsTagged};

    ghost Value = { List ℕ };

    ghost view = { λ k. k.keys.items };

    ghost invariant = { λ k. IsTagged nat_cmp (λ key. key % 10) 0 k.keys.items k.tree };
}

impl Keyed {
    fn new(alloc: Global) -> Keyed
        ensures { result ≡ [] }
    {
        Keyed {
            keys: Vec::new(alloc),
            tree: Tree::new(alloc),
        }
    }

    /// The place of the first key that is equal.
    fn find(&self, key: u32) -> Option<u32>
        ensures { result ≡ position (λ k. is_eq (nat_cmp key k)) self.now }
    {
        let sought = Sought {
            keys: self.keys.as_slice(),
            key,
        };
        self.tree.find(&sought)
    }

    fn push(&mut self, key: u32) -> Result<(), AllocError>
        requires { length self.old + 1 < 2 ^ 31 }
        ensures { OnOk result (self.new ≡ self.old ++ key ∷ []) }
    {
        self.tree.reserve(1)?;
        self.keys.reserve(1)?;
        let sought = Sought {
            keys: self.keys.as_slice(),
            key,
        };
        self.tree.add(&sought);
        self.keys.push_reserved(key);
        Ok(())
    }
}

/// Adds the keys in order, and asserts for each of them, and for one that isn't there, what is
/// found.
fn check(alloc: Global, rt: &impl Abort, keys: &[u32], places: &[u32]) -> Result<(), Fail> {
    let mut keyed = Keyed::new(alloc);
    for &key in keys {
        if keyed.keys.len() < 1000 {
            keyed.push(key)?;
        }
    }
    for (&key, &place) in keys.iter().zip(places) {
        assert_eq!(rt; keyed.find(key), Some(place), "{key}");
    }
    assert_eq!(rt; keyed.find(999), None);
    Ok(())
}

#[test]
fn finds_the_first_place_of_each_key(rt: HostRuntime) -> Result<(), Fail> {
    let cases: [(&[u32], &[u32]); 5] = [
        (&[], &[]),
        (
            &[1, 2, 3, 4, 5, 6, 7, 8, 9, 11, 12, 13],
            &[0, 1, 2, 3, 4, 5, 6, 7, 8, 9, 10, 11],
        ),
        (&[8, 7, 6, 5, 4, 3, 2, 1], &[0, 1, 2, 3, 4, 5, 6, 7]),
        (&[50, 10, 50, 90, 10, 30, 90], &[0, 1, 0, 3, 1, 5, 3]),
        (&[5, 3, 25, 13, 5, 4, 25], &[0, 1, 2, 3, 0, 5, 2]),
    ];
    for (keys, places) in cases {
        check(rt.alloc(), &rt, keys, places)?;
    }
    Ok(())
}
