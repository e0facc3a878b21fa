//! Inserting a node into a tree of nodes.
ghost use Rattle.std.specs.Prelude.{◌≡◌, ◌≢◌, ℕ, ◌+◌, ◌^◌, ◌<◌, [], ◌∷◌, ◌++◌, length};
ghost use Rattle.std.specs.Prelude.{vec_len, vec_capacity};
ghost use Rattle.epic_tree.specs.Sides.{IsCut, by_tag};
ghost use Rattle.epic_tree.specs.Shapes.{Tip, Fork, depth, places, count, one, inserted, IsBalanced};
ghost use Rattle.epic_tree.specs.Arena.{shape, tags_of, Stands, IsTree, Keeps, IsKept, IsAdded};

use crate::Aim;
use crate::arena::{MAX_NODES, NIL, Node, read};
use crate::search::side_at;
use crate::settle::settle;
use std::cmp::Ordering;

/// Puts a node that stands alone into the tree at a place, where what is sought stands, unless a node
/// stands there, and answers where the tree is then.
pub fn insert_under<S: Aim>(nodes: &mut [Node], at: u32, fresh: u32, tag: u32, aim: &S) -> u32
    requires tree { IsTree nodes.old at }
    requires balanced { IsBalanced (shape nodes.old at) }
    requires low { depth (shape nodes.old at) < 2 ^ 31 }
    requires fresh { Stands nodes.old fresh (Fork Tip fresh Tip) }
    requires apart { count fresh (shape nodes.old at) ≡ 0 }
    requires known { (i : ℕ) → i < length nodes.old → i ≢ fresh → S.knows aim.now i }
    ensures stands { Stands nodes.new result
        (inserted (by_tag (tags_of nodes.old) tag (S.side aim.now)) fresh (shape nodes.old at)) }
    ensures kept { Keeps (λ k. count k (shape nodes.old at) + one k fresh) nodes.old nodes.new }
{
    if at == NIL {
        return fresh;
    }
    let node = read(nodes, at);
    match side_at(nodes, at, tag, aim) {
        Ordering::Less => {
            let left = insert_under(nodes, node.left, fresh, tag, aim);
            settle(nodes, left, at, node.right)
        }
        Ordering::Equal => at,
        Ordering::Greater => {
            let right = insert_under(nodes, node.right, fresh, tag, aim);
            settle(nodes, node.left, at, right)
        }
    }
}

/// Adds a node at the end of the list, puts its place into the tree at a place, and answers where the
/// tree is then.
pub fn attach<S: Aim>(nodes: &mut Vec<Node>, root: u32, aim: &S) -> u32
    requires kept { IsKept nodes.old.items root }
    requires few { vec_len nodes.old < MAX_NODES }
    requires room { vec_len nodes.old < vec_capacity nodes.old }
    requires cut { IsCut (by_tag (tags_of nodes.old.items) (S.tag aim.now) (S.side aim.now))
        (places (shape nodes.old.items root)) }
    requires known { (i : ℕ) → i < length nodes.old.items → S.knows aim.now i }
    ensures added { IsAdded (by_tag (tags_of nodes.old.items) (S.tag aim.now) (S.side aim.now))
        nodes.old.items nodes.new.items root result }
    ensures tags { tags_of nodes.new.items ≡ tags_of nodes.old.items ++ S.tag aim.now ∷ [] }
    ensures capacity { vec_capacity nodes.new ≡ vec_capacity nodes.old }
{
    let fresh = nodes.len() as u32;
    let tag = aim.tag();
    nodes.push_reserved(Node {
        left: NIL,
        right: NIL,
        height: 1,
        tag,
    });
    insert_under(nodes.as_mut_slice(), root, fresh, tag, aim)
}
